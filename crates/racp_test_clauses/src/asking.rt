//! Questions by chance, and what a search tells of them.

ghost use Rattle.racp_by_clauses.specs.Optima.{IsTaskOf};
ghost use Rattle.std.specs.Prelude.{◌≡◌};

use racp_by_clauses::Task;
use racp_clauses::{Clause, Derivation, Literal, OfProblem};
use racp_learning::{Reason, Search, Told};
use racp_model::{Network, Never};
use racp_samples::Random;
use std::alloc::AllocError;

/// How many questions are asked of an order.
pub const QUESTIONS: u32 = 8;

/// Narrows up to three bounds by chance: less cost, fewer units, or other starts.
fn narrow<N: OfProblem>(
    net: &Network,
    random: &mut Random,
    d: &mut Derivation<N>,
) -> Result<(), AllocError> {
    let jobs = net.job_count();
    let cost = u32::try_from(jobs.saturating_add(net.resource_count())).unwrap_or(0);
    for _i in 0..random.below(4) {
        let mut place = random.below(cost.saturating_add(1));
        if random.below(3) == 0 {
            place = cost;
        }
        let x = place as usize;
        let (low, high) = (d.bounds().lower_at(x), d.bounds().upper_at(x));
        let width = u32::try_from(high.saturating_sub(low)).unwrap_or(0);
        let value = low.saturating_add(random.below(width) as u64);
        if x < jobs && low < high && random.below(3) == 0 {
            d.suppose(Literal::AtMost(place, value))?;
        } else {
            d.suppose(Literal::AtLeast(place, value.saturating_add(1)))?;
        }
    }
    Ok(())
}

/// The root bounds with up to three of them narrowed by chance. They are those of a derivation, which keeps their places.
pub fn question<N: OfProblem>(
    task: Task<'_>,
    random: &mut Random,
) -> Result<Derivation<N>, AllocError>
    requires { IsTaskOf N.problem task }
{
    let mut d: Derivation<N> = Derivation::new(task.alloc, task.root)?;
    match narrow(task.net, random, &mut d) {
        Ok(()) => Ok(d),
        Err(fault) => {
            drop(d);
            Err(fault)
        }
    }
}

/// What a search told of questions: which were answered by starts, which refuted, and which left open since the conflicts
/// were spent, as bits; how many conflicts it met, how many clauses it lost; and a number that mixes all that it told.
#[derive(Clone, Copy)]
pub struct Record {
    pub found: u32,
    pub refuted: u32,
    pub spent: u32,
    pub conflicts: u64,
    pub lost: u64,
    pub mixed: u64,
}

impl Record {
    fn mix(&mut self, number: u64) {
        self.mixed = self
            .mixed
            .wrapping_mul(6_364_136_223_846_793_005)
            .wrapping_add(number);
    }

    fn mix_each(&mut self, numbers: &[u32]) {
        for number in numbers {
            self.mix(*number as u64);
        }
    }

    fn mix_literals(&mut self, literals: &[Literal]) {
        for literal in literals {
            let (side, x, v) = match literal {
                Literal::AtLeast(x, v) => (0, *x, *v),
                Literal::AtMost(x, v) => (1, *x, *v),
            };
            self.mix(side);
            self.mix(x as u64);
            self.mix(v);
        }
    }

    /// Writes down what was told of a question, which is this bit.
    fn note<N: OfProblem>(&mut self, bit: u32, told: &Told<Clause<N>>) {
        match told {
            Told::Found(starts, units) => {
                self.found |= bit;
                self.mix_each(starts.as_slice());
                self.mix_each(units.as_slice());
            }
            Told::Refuted(clause) => {
                self.refuted |= bit;
                self.mix_literals(clause.literals());
            }
            Told::Open(Reason::Budget) => self.spent |= bit,
            Told::Open(_) => {}
        }
    }
}

/// What a search tells of the next question.
fn ask_next<N: OfProblem>(
    task: Task<'_>,
    search: &mut Search<N>,
    random: &mut Random,
    conflicts: u64,
) -> Result<Told<Clause<N>>, AllocError>
    requires { IsTaskOf N.problem task }
{
    let asked: Derivation<N> = question(task, random)?;
    let told = search.ask(task.net, task.order, asked.bounds(), conflicts, &Never);
    drop(asked);
    told
}

/// What a search tells of questions, one after the other.
fn ask_each<N: OfProblem>(
    task: Task<'_>,
    search: &mut Search<N>,
    mut random: Random,
    conflicts: u64,
) -> Result<Record, AllocError>
    requires { IsTaskOf N.problem task }
{
    let mut record = Record {
        found: 0,
        refuted: 0,
        spent: 0,
        conflicts: 0,
        lost: 0,
        mixed: 0,
    };
    let mut bit = 1u32;
    for _question in 0..QUESTIONS {
        let told = ask_next(task, search, &mut random, conflicts)?;
        record.note(bit, &told);
        bit = bit.wrapping_mul(2);
    }
    let tally = search.tally();
    record.conflicts = tally.conflicts;
    record.lost = tally.lost;
    for number in [
        tally.decisions,
        tally.hints,
        tally.literals,
        tally.restarts,
        tally.forgotten,
    ] {
        record.mix(number);
    }
    Ok(record)
}

/// Limits of a search, and whether it looks at windows and has the latest starts as a guide.
#[derive(Clone, Copy)]
pub struct Limits {
    pub conflicts: u64,
    pub bytes: u64,
    pub seed: u64,
    pub is_helped: bool,
}

/// Has a search look at windows, and keep to the latest starts.
fn help<N: OfProblem>(task: Task<'_>, search: &mut Search<N>) -> Result<(), AllocError> {
    let mut latest = Vec::with_capacity(task.alloc, task.net.job_count())?;
    for i in 0..task.net.job_count() {
        latest.push(u32::try_from(task.root.upper_at(i)).unwrap_or(0))?;
    }
    search.look_at_energies();
    search.guide(&latest)
}

/// What a new search tells of questions that begin with this state of chance.
pub fn asked<N: OfProblem>(
    task: Task<'_>,
    random: Random,
    limits: Limits,
) -> Result<Record, AllocError>
    requires { IsTaskOf N.problem task }
{
    let (net, order, root) = (task.net, task.order, task.root);
    let mut search: Search<N> = Search::new(
        task.alloc,
        net,
        order,
        root,
        limits.seed,
        limits.bytes,
    )?;
    if limits.is_helped {
        help(task, &mut search)?;
    }
    ask_each(task, &mut search, random, limits.conflicts)
}
