// What a caller lends for the dimensions of its lists.

// The dimensions of the records, the record numbers of the columns and of the quotients, and the dimension of the x kinds.
#[derive(Clone, Copy)]
pub struct Lent<'a> {
    pub record_dims: &'a [u16],
    pub cm_2ns: &'a [u16],
    pub qs: &'a [u16],
    pub dim_x: u16,
}
