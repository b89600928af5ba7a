use super::master::MasterWith;
use control::cycle::Report;
use lines::line::Line;
use orders::pair::Queues;

impl MasterWith<Queues<'_>> {
    ghost use Rattle.std.specs.Prelude.{◌≡◌, ◌≤◌};
    ghost use Rattle.lines.specs.Lines.{seen};
    ghost use Rattle.lines.specs.Sending.{Sends};
    ghost use Rattle.orders.specs.Management.{next_order};
    ghost use Rattle.control.specs.AnyReplies.{most_in};
    ghost use Rattle.control.specs.Serving.{ServedIn};
    ghost use Rattle.master.specs.Masters.{Runs, line_behind, sent_in};

    /// One cycle on a line.
    #[inline(always)]
    pub fn cycle<L: Line>(&mut self, line: &mut L) -> Report
        ensures made { Runs (seen L.power L.stations line.old) self.old result self.new }
        ensures line { seen L.power L.stations line.new ≡ line_behind (seen L.power L.stations line.old) self.old }
        ensures sends { Sends L.carried line.old (sent_in (seen L.power L.stations line.old) self.old) line.new }
        ensures at_most { result.requests ≤ most_in result.phase }
        ensures served { ServedIn result.phase (next_order self.old.queues) self.old.queues self.new.queues }
    {
        self.control.cycle(line, &mut self.queues)
    }
}
