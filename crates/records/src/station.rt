// A station: where bikes are taken and brought back.

// The balance says how many bikes the station can spare, or below zero how many it lacks.
#[derive(Clone, Copy, PartialEq, Eq, Debug, Default)]
pub struct Station {
    pub balance: i32,
}
