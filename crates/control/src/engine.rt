ghost use Rattle.std.specs.Prelude.{◌≡◌, ◌≤◌, ◌<◌, ◌+◌, ◌-◌, ◌*◌, option_map, true, false, None, Some, ◌&&◌, not, ◌||◌, if◌then◌else◌};
ghost use Rattle.telegrams.specs.Requests.{sent, heard};
ghost use Rattle.phases.specs.Conversations.{question, when_heard};
ghost use Rattle.records.specs.Rows.{row_at};
ghost use Rattle.records.specs.Records.{rows};
ghost use Rattle.control.specs.Cycles.{Master, control_of, master_of, phase_with};
ghost use Rattle.control.specs.Cycling.{cycle_conversation, begun, searching};
ghost use Rattle.control.specs.AnyReplies.{most_in, AsksOnAnyWire};
ghost use Rattle.control.specs.Turns.{rest_of, left, Asks, AsksNothing, NotOver, heard_at, left_at, manage_rest, exchange_rest, detect_rest, activate_rest, admitted, activated, step_taken};
ghost use Rattle.control.specs.Serving.{before_answer, ServedUpTo, ServedBetween};

use super::control::{ExecutionControl, Phase};
use super::cycle::Report;
use super::turn::Turn;
use orders::management::hear_order;
use orders::order::{Answer, Unanswered};
use orders::pair::Queues;
use phases::activation::{hear_entered, is_admissible};
use phases::detection::detect_at;
use phases::exchange::hear_data;
use records::entry::Codes;
use search::searching::{hear_called, hear_sought};
use search::step::{Step, pick};
use telegrams::request::{Reply, Request};
use values::address::Address;
use values::module_address::ModuleAddress;
use values::nibble::Nibble;

/// A cycle under way. `ExecutionControl::begin` gives it, `next` the request that is to be sent, `ExecutionControl::hear` takes the reply; where nothing
/// is next, the cycle is over and `report` tells what it was. It belongs to the execution control and the queues that it was begun with, and is void once
/// another is begun.
#[derive(Drop)]
pub struct Cycle {
    pub(crate) phase: Phase,
    pub(crate) requests: u32,
    pub(crate) turn: Turn,
    ghost few: { requests + left_at turn ≤ 64 },
}

impl Cycle {
    /// The request that is next; none where the cycle is over.
    #[inline(always)]
    pub fn next(&self) -> Option<Request>
        ensures { (c : Master) → option_map sent result ≡ question (rest_of self.now.turn c) }
    {
        match self.turn {
            Turn::Over => None,
            Turn::DetectIo(at) | Turn::Seek(at) => Some(Request::ReadIo(at)),
            Turn::DetectId(at, _) | Turn::Name(at, _) => Some(Request::ReadId(at)),
            Turn::Activate(to, pp) | Turn::Enter(to, pp) => Some(Request::WriteParameter(to, pp)),
            Turn::Exchange(to, odi) => Some(Request::DataExchange(to, odi)),
            Turn::Manage(order) => Some(order.request()),
        }
    }

    /// Whether the request that is next is one of detection.
    #[inline(always)]
    pub(crate) fn detects(&self) -> bool
        ensures { result ≡ true → Asks self.now.turn }
    {
        matches!(self.turn, Turn::DetectIo(_) | Turn::DetectId(_, _))
    }

    /// Whether the request that is next is one of data exchange.
    #[inline(always)]
    pub(crate) fn exchanges(&self) -> bool
        ensures { result ≡ true → Asks self.now.turn }
    {
        matches!(self.turn, Turn::Exchange(_, _))
    }

    /// Whether no request is next.
    #[inline(always)]
    pub(crate) fn is_over(&self) -> bool
        ensures over { result ≡ true → AsksNothing self.now.turn }
        ensures goes_on { result ≡ false → Asks self.now.turn }
    {
        matches!(self.turn, Turn::Over)
    }

    /// The phase that it runs in, and how many of its requests have had their reply.
    pub fn report(&self) -> Report
        ensures phase { result.phase ≡ self.now.phase }
        ensures requests { result.requests ≡ self.now.requests }
    {
        Report {
            phase: self.phase,
            requests: self.requests,
        }
    }
}

impl ExecutionControl {
    ghost use Rattle.control.specs.Driving.{Begins, Hears};

    /// Begins a cycle, with power up or not. What asks nothing is done at once. The nibble that a request carries is settled when the reply before
    /// it is heard, or as the cycle begins.
    #[inline(always)]
    pub fn begin(&mut self, queues: &mut Queues, powered: bool) -> Cycle
        ensures { Begins powered self.old queues.old result self.new queues.new }
    {
        let phase = self.phase_with(powered);
        let turn = self.first_turn(queues, phase, powered);
        Cycle {
            phase,
            requests: 0,
            turn,
        }
    }

    /// The first turn of a cycle in this phase.
    #[inline(always)]
    #[tactic(auto, unfolding(crate::specs::Cycling::cycle_conversation))]
    fn first_turn(&mut self, queues: &mut Queues, phase: Phase, powered: bool) -> Turn
        ensures rest { left result self.new queues.new
            ≡ cycle_conversation phase powered (master_of self.old queues.old) }
        ensures few { left_at result ≤ 64 }
        ensures most { left_at result ≤ most_in phase }
        ensures served { ServedUpTo phase result queues.old queues.new }
        ensures waits { NotOver result → control_of self.new ≡ control_of self.old }
    {
        match phase {
            Phase::Offline => {
                self.stay_offline(powered);
                Turn::Over
            }
            Phase::Detection => Turn::DetectIo(Address::low(0)),
            Phase::Activation => self.activate_from(0),
            Phase::Normal => self.exchange_behind(queues, Address::low(0)),
        }
    }

    /// Takes the reply to the request that was next. Where none was, nothing changes.
    #[inline(always)]
    pub fn hear(&mut self, queues: &mut Queues, cycle: &mut Cycle, reply: Reply)
        ensures { Hears (heard reply) self.old queues.old cycle.old self.new queues.new cycle.new }
    {
        match cycle.turn {
            Turn::Over => {}
            turn => {
                let requests = cycle.requests + 1;
                *cycle = Cycle {
                    phase: cycle.phase,
                    requests,
                    turn: self.turn_after(queues, turn, reply),
                };
            }
        }
    }

    /// The turn behind this one, after a reply.
    #[inline(always)]
    fn turn_after(&mut self, queues: &mut Queues, turn: Turn, reply: Reply) -> Turn
        ensures rest { left result self.new queues.new
            ≡ when_heard (heard reply) (left turn self.old queues.old) }
        ensures nearer { NotOver turn → left_at result < left_at turn }
        ensures served { ServedBetween turn result queues.old queues.new }
        ensures waits { NotOver result
            → control_of self.new ≡ heard_at turn (heard reply) (control_of self.old) }
    {
        let rows = &mut self.table.rows;
        match turn {
            Turn::Over => Turn::Over,
            Turn::DetectIo(at) => match reply {
                Reply::Answer(io) => Turn::DetectId(at, io),
                Reply::Silence | Reply::Disturbed => self.detect_behind(at),
            },
            Turn::DetectId(at, io) => {
                if let Reply::Answer(id) = reply {
                    detect_at(rows, at, Codes { io, id });
                }
                self.detect_behind(at)
            }
            Turn::Activate(to, pp) => {
                hear_entered(rows, to, pp, reply);
                self.activate_from(u32::from(to.get()) + 1)
            }
            Turn::Exchange(to, _) => {
                hear_data(rows, Address::from(to), reply);
                self.exchange_behind(queues, Address::from(to))
            }
            Turn::Manage(order) => {
                let result = hear_order(rows, order, reply);
                queues.finish(Answer { order, result });
                self.search_next()
            }
            Turn::Seek(at) => {
                hear_sought(rows, at, reply);
                self.take_step(at, reply)
            }
            Turn::Name(at, io) => {
                hear_called(rows, at, io, reply);
                self.take_step(at, reply)
            }
            Turn::Enter(to, pp) => {
                hear_entered(rows, to, pp, reply);
                self.take_step(Address::from(to), Reply::Silence)
            }
        }
    }

    /// Data exchange behind an address, or else what follows it.
    #[inline(always)]
    fn exchange_behind(&mut self, queues: &mut Queues, at: Address) -> Turn
        ensures rest { left result self.new queues.new
            ≡ exchange_rest (at.value + 1) (master_of self.old queues.old) }
        ensures few { left_at result ≤ 33 - at.value }
        ensures served { ServedUpTo Phase.Normal result queues.old queues.new }
        ensures waits { NotOver result → control_of self.new ≡ control_of self.old }
    {
        if let Some(to) = self.table.rows.first_active_behind(at) {
            return Turn::Exchange(to, self.output_data(to));
        }
        self.manage_next(queues)
    }

    /// Management, or else what follows it. An order for an address that is not active ends at once.
    #[inline(always)]
    fn manage_next(&mut self, queues: &mut Queues) -> Turn
        ensures rest { left result self.new queues.new
            ≡ manage_rest (master_of self.old queues.old) }
        ensures few { left_at result ≤ 2 }
        ensures served { ServedUpTo Phase.Normal result queues.old queues.new }
        ensures waits { NotOver result → control_of self.new ≡ control_of self.old }
    {
        let Some(order) = queues.next() else {
            return self.search_next();
        };
        if self.table.rows.is_active(order.address()) {
            return Turn::Manage(order);
        }
        queues.finish(Answer {
            order,
            result: Err(Unanswered::NotActive),
        });
        self.search_next()
    }

    /// The search. To enter an address that is not admissible asks nothing, and is done at once.
    fn search_next(&mut self) -> Turn
        ensures rest { (q : Queues) → left result self.new q ≡ searching (master_of self.old q) }
        ensures few { left_at result ≤ 1 }
        ensures late { before_answer result ≡ false }
        ensures waits { NotOver result → control_of self.new ≡ control_of self.old }
    {
        match self.step {
            Step::Seek(from) => Turn::Seek(pick(&self.table.rows, from)),
            Step::Name(at, io) => Turn::Name(at, io),
            Step::Enter(at) => {
                if let Some(to) = self.admitted(at) {
                    return Turn::Enter(to, self.permanent_parameter(to));
                }
                self.step = self.step.after(at, Reply::Silence, false);
                Turn::Over
            }
        }
    }

    /// The step of the search behind one that was taken at an address.
    // Out of line: inlined into the loops over a cycle it would have all of the execution control kept in registers.
    #[inline(never)]
    fn take_step(&mut self, at: Address, reply: Reply) -> Turn
        ensures turn { result ≡ Turn.Over }
        ensures step { control_of self.new
            ≡ step_taken at.value (heard reply) (control_of self.old) }
    {
        let admissible = is_admissible(self.table.mode(), &self.table.rows, at);
        self.step = self.step.after(at, reply, admissible);
        Turn::Over
    }

    /// Detection behind an address, or the end of the phase.
    fn detect_behind(&mut self, at: Address) -> Turn
        ensures rest { (q : Queues) → left result self.new q
            ≡ detect_rest (at.value + 1) (master_of self.old q) }
        ensures few { left_at result ≤ 2 * (31 - at.value) }
        ensures late { before_answer result ≡ false }
        ensures waits { NotOver result → control_of self.new ≡ control_of self.old }
    {
        if at.get() < 31 {
            return Turn::DetectIo(Address::low(u32::from(at) + 1));
        }
        self.phase = Phase::Activation;
        Turn::Over
    }

    /// Activation from an address on, or the end of the phase.
    fn activate_from(&mut self, from: u32) -> Turn
        requires { from ≤ 32 }
        ensures rest { (q : Queues) → left result self.new q
            ≡ activate_rest from (master_of self.old q) }
        ensures few { left_at result ≤ 32 - from }
        ensures late { before_answer result ≡ false }
        ensures waits { NotOver result → control_of self.new ≡ control_of self.old }
        ensures most { left_at result ≤ 31 }
    {
        for a in from..32 {
            if let Some(to) = self.activated(Address::low(a)) {
                return Turn::Activate(to, self.permanent_parameter(to));
            }
        }
        self.phase = Phase::Normal;
        Turn::Over
    }

    /// The address, where activation enters it.
    fn activated(&self, at: Address) -> Option<ModuleAddress>
        ensures { option_map (λ a. a.value) result ≡ activated at.value (control_of self.now) }
    {
        if !self.table.rows.is_detected(at) {
            return None;
        }
        self.admitted(at)
    }

    /// The address, where it is admissible.
    fn admitted(&self, at: Address) -> Option<ModuleAddress>
        ensures { option_map (λ a. a.value) result ≡ admitted at.value (control_of self.now) }
    {
        if !is_admissible(self.table.mode(), &self.table.rows, at) {
            return None;
        }
        ModuleAddress::try_from(at).ok()
    }

    /// ODI of an address.
    fn output_data(&self, to: ModuleAddress) -> Nibble
        ensures { result.value ≡ (row_at to.value (rows self.now.table.rows)).odi }
    {
        let entry = self.table.rows.entry(Address::from(to));
        entry.odi
    }

    /// PP of an address.
    fn permanent_parameter(&self, to: ModuleAddress) -> Nibble
        ensures { result.value ≡ (row_at to.value (rows self.now.table.rows)).pp }
    {
        let entry = self.table.rows.entry(Address::from(to));
        entry.pp
    }
}
