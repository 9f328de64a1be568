//! Why `check` or `verify` does not say that a plan is right, with the line and the status for it.

ghost use Rattle.std.specs.Prelude.{◌≡◌, IfOk, Err};
ghost use Rattle.racp_cli.specs.Checks.{check_status, check_text};

use crate::lines::{order_refused_line, plan_fault_line, plan_refused_line, refused_line};
use crate::status::{CHECK_FAILED, OUT_OF_MEMORY, REFUSED};
use racp_check::PlanFault;
use racp_plan::{TextFault, TextFaultKind};
use racp_prices::OrderFault;
use racp_sm::{SmFault, SmFaultKind};
use std::alloc::{AllocError, Global};

/// Why nothing says that the plan is right: a text that is refused, the first one; that memory ran out; or what is
/// wrong with the plan.
#[derive(Clone, Copy, Drop)]
pub(crate) enum CheckFault {
    /// The network text is refused.
    Network(SmFault),
    /// The order text is refused.
    Order(OrderFault),
    /// The plan text is refused.
    PlanText(TextFault),
    /// Memory ran out.
    OutOfMemory,
    /// The plan's deadline is not the order's, or its critical length not the project's.
    Head,
    /// The first fault of the plan.
    Wrong(PlanFault),
}

impl CheckFault {
    /// The status that tells of the fault.
    pub(crate) fn status(self) -> u8
        ensures { result ≡ check_status (Err self) }
    {
        match self {
            CheckFault::Network(_) | CheckFault::Order(_) | CheckFault::PlanText(_) => REFUSED,
            CheckFault::OutOfMemory => OUT_OF_MEMORY,
            CheckFault::Head | CheckFault::Wrong(_) => CHECK_FAILED,
        }
    }

    /// The line that tells of the fault.
    pub(crate) fn line(self, alloc: Global) -> Result<Vec<u8>, AllocError>
        ensures { IfOk result (λ text. text.items ≡ check_text (Err self)) }
    {
        match self {
            CheckFault::Network(fault) => refused_line(alloc, fault),
            CheckFault::Order(fault) => order_refused_line(alloc, fault),
            CheckFault::PlanText(fault) => plan_refused_line(alloc, fault),
            CheckFault::OutOfMemory => b"memory\n".to_vec(alloc),
            CheckFault::Head => b"fault head\n".to_vec(alloc),
            CheckFault::Wrong(fault) => plan_fault_line(alloc, fault),
        }
    }
}

impl From<AllocError> for CheckFault {
    ghost use Rattle.std.specs.Prelude.{◌≡◌};
    ghost use Rattle.racp_cli.specs.declared.check_fault.CheckFault.TheVariants.{OutOfMemory};

    ghost from_gives = { λ _ fault. fault ≡ OutOfMemory };

    fn from(_error: AllocError) -> CheckFault {
        CheckFault::OutOfMemory
    }
}

impl From<SmFault> for CheckFault {
    ghost use Rattle.racp_cli.specs.Responses.{IsOfNetwork};

    ghost from_gives = { IsOfNetwork };

    fn from(error: SmFault) -> CheckFault {
        match error.kind {
            SmFaultKind::Memory => CheckFault::OutOfMemory,
            _ => CheckFault::Network(error),
        }
    }
}

impl From<OrderFault> for CheckFault {
    ghost use Rattle.racp_cli.specs.Responses.{IsOfOrder};

    ghost from_gives = { IsOfOrder };

    fn from(error: OrderFault) -> CheckFault {
        match error {
            OrderFault::Memory => CheckFault::OutOfMemory,
            _ => CheckFault::Order(error),
        }
    }
}

impl From<TextFault> for CheckFault {
    ghost use Rattle.racp_cli.specs.Responses.{IsOfPlanText};

    ghost from_gives = { IsOfPlanText };

    fn from(error: TextFault) -> CheckFault {
        match error.kind {
            TextFaultKind::Memory => CheckFault::OutOfMemory,
            _ => CheckFault::PlanText(error),
        }
    }
}

impl From<PlanFault> for CheckFault {
    ghost use Rattle.std.specs.Prelude.{◌≡◌};
    ghost use Rattle.racp_cli.specs.declared.check_fault.CheckFault.TheVariants.{Wrong};

    ghost from_gives = { λ error fault. fault ≡ Wrong error };

    fn from(error: PlanFault) -> CheckFault {
        CheckFault::Wrong(error)
    }
}
