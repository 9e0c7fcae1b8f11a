// What is written of one call: number, reason, place (2 bytes, the higher first), how many events it caused, and these.
use rules::{CheckError, Refusal, Rejection};
use std::io::Stdout;

fn put_head(out: Stdout, number: u8, reason: u8, place: usize, count: usize) {
    let [high, low] = ((place & 0xffff) as u16).to_be_bytes();
    let _ = streams::write_all(out, &[number, reason, high, low, (count & 0xff) as u8]);
}

// A call that is done has the events that it caused.
pub fn put(out: Stdout, answer: Result<&[u8], CheckError>) {
    match answer {
        Ok(caused) => {
            put_head(out, 0, 0, 0, caused.len());
            let _ = streams::write_all(out, caused);
        }
        Err(CheckError::Refused(refusal)) => put_head(out, u8::from(refusal), 0, 0, 0),
        Err(CheckError::Rejected(Rejection { reason, place })) => {
            put_head(out, u8::from(Refusal::Rejected), u8::from(reason), place, 0)
        }
    }
}
