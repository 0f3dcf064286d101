use numbering::Seat;

/// A row of the table: the seat is linked to the authority whose key has the number.
#[derive(Debug, Drop)]
pub struct Link {
    pub number: u32,
    pub seat: Seat,
}
