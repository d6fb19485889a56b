/// The program's version, named in this place alone.
pub const VERSION: &str = "0.7.0";
