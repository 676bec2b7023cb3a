//! What a drawer and a user are judged by, each as one record.

use bank_policy::Standing;

/// What the drawer of a teller is judged by.
#[derive(Clone, Copy, Debug, PartialEq, Eq)]
pub struct DrawerRecord {
    /// Its cash in cents: the sum of its lines.
    pub cash: i128,
    /// The user who holds it, 1 to 9,999.
    pub holder: Option<u32>,
}

/// A user's standing, with the number that the books give for the user.
#[derive(Clone, Copy, Debug, PartialEq, Eq)]
pub struct UserRecord {
    /// What the user's row says of whether they may ask.
    pub standing: Standing,
    /// How many releases they were given.
    pub releases: u64,
}
