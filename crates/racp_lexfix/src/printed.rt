//! The text of an answer with its status, and why there is none.

ghost use Rattle.std.specs.Prelude.{◌≡◌, IfOk};
ghost use Rattle.racp_lexfix.specs.Texts.{answer_text, answer_status};

use crate::answer::Answer;
use crate::lines::answer_lines;
use crate::status::{DONE, IMPOSSIBLE};
use racp_by_questions::PlanStop;
use racp_prices::{Order, OrderFault};
use racp_sm::SmFault;
use std::alloc::{AllocError, Global};
use thiserror::Error;

/// The text of an answer, and the status that belongs to it.
#[derive(Drop)]
pub struct Printed {
    /// The text of the plan, or the line that says why there is none, in ASCII.
    pub text: Vec<u8>,
    /// 0 for a plan, 3 where there is none.
    pub status: u8,
}

/// Why there is no answer.
#[derive(Debug, Drop, Error)]
pub enum Refusal {
    /// The network text is refused, or memory was refused while it was read.
    #[error("the network is refused")]
    Sm(SmFault),
    /// The order text is refused, or memory was refused while it was read.
    #[error("the order is refused")]
    Order(OrderFault),
    /// Planning ended early.
    #[error("the plan is not known")]
    Stop(PlanStop),
}

impl From<SmFault> for Refusal {
    ghost use Rattle.std.specs.Prelude.{◌≡◌};
    ghost use Rattle.racp_lexfix.specs.declared.printed.Refusal.TheVariants.{Sm};

    ghost from_gives = { λ fault refusal. refusal ≡ Sm fault };

    fn from(fault: SmFault) -> Refusal {
        Refusal::Sm(fault)
    }
}

impl From<OrderFault> for Refusal {
    ghost use Rattle.std.specs.Prelude.{◌≡◌};
    ghost use Rattle.racp_lexfix.specs.declared.printed.Refusal.TheVariants.{Order};

    ghost from_gives = { λ fault refusal. refusal ≡ Order fault };

    fn from(fault: OrderFault) -> Refusal {
        Refusal::Order(fault)
    }
}

impl From<PlanStop> for Refusal {
    ghost use Rattle.std.specs.Prelude.{◌≡◌};
    ghost use Rattle.racp_lexfix.specs.declared.printed.Refusal.TheVariants.{Stop};

    ghost from_gives = { λ stop refusal. refusal ≡ Stop stop };

    fn from(stop: PlanStop) -> Refusal {
        Refusal::Stop(stop)
    }
}

impl From<AllocError> for Refusal {
    ghost use Rattle.std.specs.Prelude.{◌≡◌};
    ghost use Rattle.racp_lexfix.specs.declared.printed.Refusal.TheVariants.{Stop};
    ghost use Rattle.racp_by_questions.specs.declared.stop.PlanStop.TheVariants.{Memory};

    ghost from_gives = { λ _ refusal. refusal ≡ Stop Memory };

    fn from(_error: AllocError) -> Refusal {
        Refusal::Stop(PlanStop::Memory)
    }
}

/// The text of an answer on the terms of an order, with its status.
///
/// # Errors
///
/// Memory was refused.
pub fn answer_printed(alloc: Global, order: &Order, answer: &Answer) -> Result<Printed, AllocError>
    ensures text { IfOk result (λ printed. printed.text.items ≡ answer_text order.now.deadline answer.now) }
    ensures status { IfOk result (λ printed. printed.status ≡ answer_status answer.now) }
{
    let text = answer_lines(alloc, order.deadline, answer)?;
    Ok(Printed {
        text,
        status: status_of(answer),
    })
}

/// The status that belongs to an answer.
fn status_of(answer: &Answer) -> u8
    ensures { result ≡ answer_status answer.now }
{
    match answer {
        Answer::Plan(_) => DONE,
        Answer::Impossible { .. } | Answer::Due { .. } | Answer::Ceiling => IMPOSSIBLE,
    }
}
