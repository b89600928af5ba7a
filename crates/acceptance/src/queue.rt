use crate::script::number;
use queues::queue::Queue;
use std::test::*;
use values::refusal::Refusal;

/// What was taken, or the number.
fn taken(res: Result<u16, Refusal>) -> u16 {
    match res {
        Ok(x) => x,
        Err(refusal) => refusal.number(),
    }
}

#[test]
fn full_and_empty(rt: HostRuntime) -> Result<(), Fail> {
    let mut slots = [0; 2];
    let mut queue = Queue::new(&mut slots);
    assert_eq!(rt; taken(queue.take()), 0x8312);
    assert_eq!(rt; number(queue.put(1)), 0);
    assert_eq!(rt; number(queue.put(2)), 0);
    // The freed place is used again.
    for n in 1..9u16 {
        assert_eq!(rt; queue.oldest(), Some(n));
        assert_eq!(rt; number(queue.put(0)), 0x8311);
        assert_eq!(rt; (queue.len(), queue.capacity()), (2, 2));
        assert_eq!(rt; taken(queue.take()), n);
        assert_eq!(rt; number(queue.put(n + 2)), 0);
    }
    assert_eq!(rt; taken(queue.take()), 9);
    assert_eq!(rt; taken(queue.take()), 10);
    assert_eq!(rt; taken(queue.take()), 0x8312);
    assert_eq!(rt; queue.len(), 0);
    Ok(())
}

#[test]
fn without_room(rt: HostRuntime) -> Result<(), Fail> {
    let mut queue = Queue::new(&mut []);
    assert_eq!(rt; number(queue.put(1)), 0x8311);
    assert_eq!(rt; taken(queue.take()), 0x8312);
    assert_eq!(rt; (queue.len(), queue.capacity()), (0, 0));
    Ok(())
}
