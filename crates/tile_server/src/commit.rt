//! Of which commit the program is.

/// The first digits of the commit whose sources it was built of, as the build writes them into its copy of this line.
pub const COMMIT: &str = "unknown";
