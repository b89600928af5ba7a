use super::master::MasterWith;
use control::cycle::Report;
use control::engine::Cycle;
use orders::pair::Queues;
use telegrams::request::{Reply, Request};

/// A cycle under way. It holds the master until it ends, so that no other call can be made between two of its requests.
#[derive(Drop)]
pub struct Underway<'b, Q> {
    master: &'b mut MasterWith<Q>,
    cycle: Cycle,
}

impl<'a> MasterWith<Queues<'a>> {
    ghost use Rattle.std.specs.Prelude.{◌≡◌};
    ghost use Rattle.master.specs.Driving.{BeginsWith};

    /// Begins a cycle, with power up or not, for who has a wire of his own. What asks nothing is done at once.
    pub fn begin(&mut self, powered: bool) -> Underway<'_, Queues<'a>>
        ensures begins { BeginsWith powered self.old result }
        ensures lender { result.master.ghost_name ≡ self.entry.ghost_name }
    {
        let cycle = self.control.begin(&mut self.queues, powered);
        Underway {
            master: self,
            cycle,
        }
    }
}

impl<Q> Underway<'_, Q> {
    ghost use Rattle.std.specs.Prelude.{◌≡◌, option_map};
    ghost use Rattle.telegrams.specs.Requests.{sent};
    ghost use Rattle.phases.specs.Conversations.{question};
    ghost use Rattle.control.specs.Cycles.{Master};
    ghost use Rattle.control.specs.Turns.{rest_of};

    /// The request that is next; none where the cycle is over.
    pub fn next(&self) -> Option<Request>
        ensures { (c : Master) → option_map sent result ≡ question (rest_of self.now.cycle.turn c) }
    {
        self.cycle.next()
    }

    /// The phase that it runs in, and how many of its requests have had their reply.
    pub fn report(&self) -> Report
        ensures phase { result.phase ≡ self.now.cycle.phase }
        ensures requests { result.requests ≡ self.now.cycle.requests }
    {
        self.cycle.report()
    }
}

impl Underway<'_, Queues<'_>> {
    ghost use Rattle.std.specs.Prelude.{◌≡◌};
    ghost use Rattle.telegrams.specs.Requests.{heard};
    ghost use Rattle.master.specs.Driving.{HearsWith};

    /// Takes the reply to the request that was next. Where none was, nothing changes.
    pub fn hear(&mut self, reply: Reply)
        ensures hears { HearsWith (heard reply) self.old self.new }
        ensures lender { self.new.master.ghost_name ≡ self.old.master.ghost_name }
    {
        let master = &mut *self.master;
        master
            .control
            .hear(&mut master.queues, &mut self.cycle, reply);
    }
}
