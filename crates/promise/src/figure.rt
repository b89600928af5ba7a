ghost use Rattle.std.specs.Prelude.{ℕ, List};
ghost use Rattle.control.specs.Cycles.{new_master};
ghost use Rattle.promise.specs.Successions.{Turn};
ghost use Rattle.promise.specs.Promise.{Promise};
ghost use Rattle.promise.specs.Sharp.{LeastBound};

/// The least number of cycles after which data is exchanged in every one with a module that stays plugged in.
pub fn waiting_bound() -> u32
    ensures least { LeastBound result }
    ensures promise { (order_room answer_room : ℕ) (ts : List Turn) → Promise (new_master order_room answer_room) ts }
{
    97
}
