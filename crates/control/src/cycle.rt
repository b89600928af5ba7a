ghost use Rattle.std.specs.Prelude.{◌≡◌, ◌≤◌, ◌+◌, ◌<◌, not, ◌||◌, if◌then◌else◌};
ghost use Rattle.orders.specs.Management.{next_order};
ghost use Rattle.lines.specs.Lines.{seen};
ghost use Rattle.lines.specs.Sending.{Sends};
ghost use Rattle.control.specs.Cycles.{control_of, master_of, held_off, phase_with, kept_offline, cycle, Cycled};
ghost use Rattle.control.specs.AnyReplies.{most_in};
ghost use Rattle.control.specs.Turns.{left, Asks, left_at, WentOnLine};
ghost use Rattle.control.specs.Serving.{ServedIn, ServedBetween};

use super::control::{ExecutionControl, Phase};
use super::engine::Cycle;
use lines::line::Line;
use orders::pair::Queues;
use phases::offline::clear;
use search::step::Step;
use values::address::Address;

/// What a cycle reports: the phase that it ran in, and how many requests it sent.
#[derive(Clone, Copy, PartialEq, Eq)]
pub struct Report {
    pub phase: Phase,
    pub requests: u32,
}

impl ExecutionControl {
    /// What keeps it offline: the request, or no power.
    fn is_held_off(&self, powered: bool) -> bool
        ensures { result ≡ held_off (control_of self.now) powered }
    {
        self.offline || !powered
    }

    /// The phase in which a cycle runs.
    pub(crate) fn phase_with(&self, powered: bool) -> Phase
        ensures { result ≡ phase_with powered (control_of self.now) }
    {
        if self.is_held_off(powered) {
            Phase::Offline
        } else {
            self.phase
        }
    }

    /// The offline phase: what was detected is forgotten. Detection is next, unless something still keeps the master offline.
    pub(crate) fn stay_offline(&mut self, powered: bool)
        ensures { control_of self.new ≡ kept_offline powered (control_of self.old) }
    {
        clear(&mut self.table.rows);
        self.power_fail = !powered;
        self.step = Step::Seek(Address::low(0));
        self.phase = if self.is_held_off(powered) {
            Phase::Offline
        } else {
            Phase::Detection
        };
    }

    /// Gives the line the request that is next, and hears the reply.
    #[inline(always)]
    fn ask<L: Line>(&mut self, line: &mut L, queues: &mut Queues, cycle: &mut Cycle)
        ensures went_on { Asks cycle.old.turn
            → WentOnLine L.carried L.power L.stations line.old line.new
            (left cycle.old.turn self.old queues.old) (left cycle.new.turn self.new queues.new) }
        ensures counted { Asks cycle.old.turn → cycle.new.requests ≡ cycle.old.requests + 1 }
        ensures nearer { Asks cycle.old.turn → left_at cycle.new.turn < left_at cycle.old.turn }
        ensures phase { cycle.new.phase ≡ cycle.old.phase }
        ensures power { L.power line.new ≡ L.power line.old }
        ensures served { ServedBetween cycle.old.turn cycle.new.turn queues.old queues.new }
    {
        if let Some(request) = cycle.next() {
            let reply = line.carry(request);
            self.hear(queues, cycle, reply);
        }
    }

    /// One cycle on a line: it runs in the offline phase where that is requested or power is down, else in the phase that is next.
    #[inline(always)]
    pub fn cycle<L: Line>(&mut self, line: &mut L, queues: &mut Queues) -> Report
        ensures cycled { Cycled (master_of self.old queues.old) (seen L.power L.stations line.old)
            result.phase result.requests
            (master_of self.new queues.new) (seen L.power L.stations line.new) }
        ensures sends { Sends L.carried line.old
            (cycle (master_of self.old queues.old) (seen L.power L.stations line.old)).sent line.new }
        ensures at_most { result.requests ≤ most_in result.phase }
        ensures served { ServedIn result.phase (next_order queues.old) queues.old queues.new }
    {
        let mut cycle = self.begin(queues, line.is_powered());
        // Detection and data exchange are most of a cycle. Asked in a loop of its own each takes fewer instructions, since the turn is known there.
        while cycle.detects() {
            self.ask(line, queues, &mut cycle);
        }
        while cycle.exchanges() {
            self.ask(line, queues, &mut cycle);
        }
        while !cycle.is_over() {
            self.ask(line, queues, &mut cycle);
        }
        cycle.report()
    }
}
