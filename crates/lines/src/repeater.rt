ghost use Rattle.std.specs.Prelude.{◌≡◌, ◌∷◌};
ghost use Rattle.values.specs.Tables.{table};
ghost use Rattle.telegrams.specs.Requests.{sent, heard};
ghost use Rattle.lines.specs.Lines.{halved, line_after, line_reply, repeated_after, repeated_reply};
ghost use Rattle.lines.specs.Sending.{Sends, again};

use super::line::Line;
use telegrams::request::{Reply, Request};

/// Stands over any line and asks once more after a disturbed reply.
#[derive(Drop)]
pub struct Repeater<L> {
    below: L,
}

impl<L> Repeater<L> {
    pub fn over(below: L) -> Repeater<L>
        ensures { result.below ≡ below }
    {
        Repeater { below }
    }

    /// The line that it stood over.
    pub fn into_below(self) -> L
        ensures { result ≡ self.below }
    {
        let Repeater { below } = self;
        below
    }
}

impl<L: Line> Repeater<L> {
    /// Passes a request down once more where the first reply was disturbed.
    fn repeat(&mut self, request: Request, first: Reply) -> Reply
        ensures sends { Sends L.Line.carried self.old.below (again (sent request) (heard first)) self.new.below }
        ensures power { L.Line.power self.new.below ≡ L.Line.power self.old.below }
        ensures after { table (L.Line.stations self.new.below) ≡ repeated_after (L.Line.power self.old.below) (sent request) (table (L.Line.stations self.old.below)) (heard first) }
        ensures reply { heard result ≡ repeated_reply (L.Line.power self.old.below) (sent request) (table (L.Line.stations self.old.below)) (heard first) }
    {
        match first {
            Reply::Disturbed => self.below.carry(request),
            Reply::Answer(_) | Reply::Silence => first,
        }
    }
}

impl<L: Line> Line for Repeater<L> {
    ghost power = { λ r. L.Line.power r.below };

    ghost stations = { λ r a. halved (L.Line.stations r.below a) };

    ghost carried = { λ r q s. Sends L.Line.carried r.below (q ∷ again q (line_reply (L.Line.power r.below) q (table (L.Line.stations r.below)))) s.below };

    fn is_powered(&self) -> bool
        ensures { result ≡ L.Line.power self.now.below }
    {
        self.below.is_powered()
    }

    fn carry(&mut self, request: Request) -> Reply
        ensures power { L.Line.power self.new.below ≡ L.Line.power self.old.below }
        ensures after { table (λ a. halved (L.Line.stations self.new.below a)) ≡ line_after (L.Line.power self.old.below) (sent request) (table (λ a. halved (L.Line.stations self.old.below a))) }
        ensures reply { heard result ≡ line_reply (L.Line.power self.old.below) (sent request) (table (λ a. halved (L.Line.stations self.old.below a))) }
        ensures below { table (L.Line.stations self.new.below) ≡ repeated_after (L.Line.power self.old.below) (sent request) (line_after (L.Line.power self.old.below) (sent request) (table (L.Line.stations self.old.below))) (line_reply (L.Line.power self.old.below) (sent request) (table (L.Line.stations self.old.below))) }
        ensures carried { Sends L.Line.carried self.old.below (sent request ∷ again (sent request) (line_reply (L.Line.power self.old.below) (sent request) (table (L.Line.stations self.old.below)))) self.new.below }
    {
        let first = self.below.carry(request);
        self.repeat(request, first)
    }
}
