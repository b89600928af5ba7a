ghost use Rattle.std.specs.Prelude.{◌≡◌, [], map, length};
ghost use Rattle.values.specs.Refusals.{outcome};
ghost use Rattle.queues.specs.Fifo.{held, room, put_after, take_outcome, take_after, UnchangedIfRefused, slots_after, OnlyTaken, OnlyPut};
ghost use Rattle.orders.specs.Orders.{ordered};
ghost use Rattle.orders.specs.Management.{next_order};
ghost use Rattle.orders.specs.Queues.{room_outcome, orders_after, Served};

use super::order::{Answer, Order};
use queues::queue::Queue;
use values::refusal::Refusal;

/// The orders that wait and the answers that are uncollected, each in a queue over a slice of the controller.
#[derive(Drop)]
pub struct Queues<'a> {
    orders: Queue<'a, Order>,
    answers: Queue<'a, Answer>,
}

impl<'a> Queues<'a> {
    /// Two empty queues over the whole slices.
    pub fn over(order_slots: &'a mut [Order], answer_slots: &'a mut [Answer]) -> Queues<'a>
        ensures no_order { held result.orders ≡ [] }
        ensures no_answer { held result.answers ≡ [] }
        ensures order_slots { result.orders.slots.now ≡ order_slots.old }
        ensures answer_slots { result.answers.slots.now ≡ answer_slots.old }
        ensures order_lender { result.orders.slots.ghost_name ≡ order_slots.entry.ghost_name }
        ensures answer_lender { result.answers.slots.ghost_name ≡ answer_slots.entry.ghost_name }
    {
        Queues {
            orders: Queue::new(order_slots),
            answers: Queue::new(answer_slots),
        }
    }

    /// How many orders wait.
    pub fn waiting(&self) -> usize
        ensures { result ≡ length (held self.now.orders) }
    {
        self.orders.len()
    }

    /// How many answers are uncollected.
    pub fn uncollected(&self) -> usize
        ensures { result ≡ length (held self.now.answers) }
    {
        self.answers.len()
    }

    /// Puts an order behind those that wait, where its answer will have room too.
    pub fn place(&mut self, order: Order) -> Result<(), Refusal>
        ensures outcome { outcome (λ u. u) result ≡ room_outcome (length (held self.old.orders)) (room self.old.orders) (length (held self.old.answers)) (room self.old.answers) }
        ensures after { map ordered (held self.new.orders) ≡ orders_after (outcome (λ u. u) result) (ordered order) (map ordered (held self.old.orders)) }
        ensures refused { UnchangedIfRefused result self.old self.new }
        ensures orders { OnlyPut self.old.orders self.new.orders }
        ensures answers { self.new.answers ≡ self.old.answers }
    {
        if self.waiting().saturating_add(self.uncollected()) >= self.answers.capacity() {
            return Err(Refusal::QueueFull);
        }
        self.orders.put(order)
    }

    /// Takes the oldest answer.
    pub fn collect(&mut self) -> Result<Answer, Refusal>
        ensures outcome { outcome (λ x. x) result ≡ take_outcome (held self.old.answers) }
        ensures after { held self.new.answers ≡ take_after (held self.old.answers) }
        ensures refused { UnchangedIfRefused result self.old self.new }
        ensures answers { OnlyTaken self.old.answers self.new.answers }
        ensures orders { self.new.orders ≡ self.old.orders }
    {
        self.answers.take()
    }

    /// The order that is carried out next: the oldest, where its answer has room.
    pub fn next(&self) -> Option<Order>
        ensures { result ≡ next_order self.now }
    {
        if self.uncollected() < self.answers.capacity() {
            self.orders.oldest()
        } else {
            None
        }
    }

    /// Takes the order that `next` gave, and puts its answer.
    pub fn finish(&mut self, answer: Answer)
        ensures orders { held self.new.orders ≡ take_after (held self.old.orders) }
        ensures answers { held self.new.answers ≡ put_after (room self.old.answers) (held self.old.answers) answer }
        ensures slots { self.new.answers.slots.now ≡ slots_after self.old.answers answer }
        ensures served { Served self.old self.new }
    {
        // Neither is refused where `next` found the order: it waits, and its answer has room.
        let _ = self.orders.take();
        let _ = self.answers.put(answer);
    }
}
