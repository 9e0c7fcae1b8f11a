// The event sets' calls. What they tell is below 256.
use wire::answer::{Answer, Told};
use wire::payload::{Given, Payload};

fn small(n: u32, answer: &mut Answer) {
    ((n & 0xff) as u8).put(answer);
}

pub fn size(payload: &[u8], answer: &mut Answer) {
    small(engine::size(u64::read(&mut Payload::new(payload))), answer);
}

pub fn lowest(payload: &[u8], answer: &mut Answer) {
    small(
        engine::lowest(u64::read(&mut Payload::new(payload))),
        answer,
    );
}
