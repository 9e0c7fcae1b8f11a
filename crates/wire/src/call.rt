// The public calls, by number.

#[derive(Clone, Copy, Debug, PartialEq, Eq)]
pub enum Call {
    ReadTable,
    ReadMarking,
    WriteMarking,
    Fresh,
    JudgeTable,
    JudgeMarking,
    Size,
    Lowest,
    Enabled,
    Due,
    PlainTick,
    Margin,
    HoldUp,
    Closure,
    Check,
    GuardedTick,
    Remedies,
    Run,
    RunBytes,
    WriteTable,
    CarryMarking,
    Chain,
    Happen,
    Sleep,
    Quiet,
}

// A number that no call has.
#[derive(Clone, Copy, Debug)]
pub struct NoSuchCall;

// 11 and 12, request and report, are retired: no later call gets them.
impl TryFrom<u8> for Call {
    type Error = NoSuchCall;

    fn try_from(number: u8) -> Result<Call, NoSuchCall> {
        let call = match number {
            1 => Call::ReadTable,
            2 => Call::ReadMarking,
            3 => Call::WriteMarking,
            4 => Call::Fresh,
            5 => Call::JudgeTable,
            6 => Call::JudgeMarking,
            7 => Call::Size,
            8 => Call::Lowest,
            9 => Call::Enabled,
            10 => Call::Due,
            13 => Call::PlainTick,
            14 => Call::Margin,
            15 => Call::HoldUp,
            16 => Call::Closure,
            17 => Call::Check,
            18 => Call::GuardedTick,
            19 => Call::Remedies,
            20 => Call::Run,
            21 => Call::RunBytes,
            22 => Call::WriteTable,
            23 => Call::CarryMarking,
            24 => Call::Chain,
            25 => Call::Happen,
            26 => Call::Sleep,
            27 => Call::Quiet,
            _ => return Err(NoSuchCall),
        };
        Ok(call)
    }
}
