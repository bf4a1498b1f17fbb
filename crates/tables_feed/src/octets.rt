// The octets of a case (docs/TABLES.md, "A case").
use call::Call;
use rows::State;
use signal::Soft;

// The records that stand there, as far as there is room; none, where a value of one of them is not named.
pub(crate) fn records(octets: &[u8]) -> Option<[Call; 1100]> {
    let mut table = [Call::EMPTY; 1100];
    let (records, _) = octets.as_chunks::<20>();
    for (call, octets) in table.iter_mut().zip(records) {
        *call = record(*octets)?;
    }
    Some(table)
}

fn record(octets: [u8; 20]) -> Option<Call> {
    let [
        k0,
        k1,
        k2,
        k3,
        hard,
        soft,
        state,
        _,
        i0,
        i1,
        r0,
        r1,
        l0,
        l1,
        n0,
        n1,
        n2,
        n3,
        _,
        _,
    ] = octets;
    let incumbent = u16::from_be_bytes([i0, i1]);
    let rerouting = u16::from_be_bytes([r0, r1]);
    Some(Call {
        key: u32::from_be_bytes([k0, k1, k2, k3]),
        hard: flag(hard)?,
        soft: soft_at(soft)?,
        state: state_at(state, incumbent, rerouting)?,
        last: u16::from_be_bytes([l0, l1]),
        remote: u32::from_be_bytes([n0, n1, n2, n3]),
    })
}

fn flag(number: u8) -> Option<bool> {
    match number {
        0 => Some(false),
        1 => Some(true),
        _ => None,
    }
}

fn soft_at(number: u8) -> Option<Soft> {
    match number {
        0 => Some(Soft::NoSoft),
        1 => Some(Soft::Asymmetric),
        2 => Some(Soft::Symmetric),
        _ => None,
    }
}

// A connection that the state does not hold is not read.
fn state_at(number: u8, incumbent: u16, rerouting: u16) -> Option<State> {
    match number {
        0 => Some(State::Null),
        1 => Some(State::Idle(incumbent)),
        2 => Some(State::HardWaiting),
        3 => Some(State::HardUnderway(rerouting)),
        4 => Some(State::SoftTriggered(incumbent)),
        5 => Some(State::SoftProceeding(incumbent, rerouting)),
        6 => Some(State::SoftInitiated(incumbent, rerouting)),
        7 => Some(State::Awaiting(incumbent, rerouting)),
        _ => None,
    }
}
