/// The authorities that a form may mean, by the numbers of their keys, in key order.
#[derive(Clone, Copy, Debug)]
pub enum Candidates<'a> {
    /// Those with the form as their own heading.
    Established(&'a [u32]),
    /// Those that are referred to from the form, where nobody has it as a heading.
    SeeFrom(&'a [u32]),
    Nobody,
}
