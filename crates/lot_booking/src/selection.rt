use crate::edition::Edition;
use lot_cost::Method;

/// How lots are selected: by the method of their account, and in which edition, which decides between lots that tie.
#[derive(Clone, Copy, Debug, PartialEq, Eq)]
pub struct Selection {
    pub edition: Edition,
    pub method: Method,
}
