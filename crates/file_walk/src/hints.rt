// The root's attributes, as far as they were looked at.

// What stands among some attributes: the namespace, `xmlns:xsi`, `xsi:schemaLocation`, any other.
#[derive(Clone, Copy)]
pub struct Carried {
    pub space: bool,
    pub prefix: bool,
    pub location: bool,
    pub other: bool,
}
