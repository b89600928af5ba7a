ghost use Rattle.std.specs.Prelude.{◌≡◌, ℕ, Bool};
ghost use Rattle.telegrams.specs.Requests.{Sent, sent, heard};
ghost use Rattle.stations.specs.Stations.{Place};
ghost use Rattle.values.specs.Tables.{table};
ghost use Rattle.lines.specs.Lines.{line_after, line_reply};

use telegrams::request::{Reply, Request};

/// A line means whether its power is up, and what stands at the station of each address. Whatever keeps this contract is one.
pub trait Line {
    ghost power: { Self → Bool };

    ghost stations: { Self → ℕ → Place };

    // That a request was carried. Who is given any line knows nothing of it but that `carry` makes it hold.
    ghost carried: { Self → Sent → Self → Type 0 };

    fn is_powered(&self) -> bool
        ensures { result ≡ power self.now };

    fn carry(&mut self, request: Request) -> Reply
        ensures power { power self.new ≡ power self.old }
        ensures after { table (stations self.new) ≡ line_after (power self.old) (sent request) (table (stations self.old)) }
        ensures reply { heard result ≡ line_reply (power self.old) (sent request) (table (stations self.old)) }
        ensures carried { carried self.old (sent request) self.new };
}
