//! Which gateway it is.

/// Its version.
const VERSION: &str = "0.1.0";

/// The same with its commit: `git archive` writes that here (.gitattributes, `export-subst`). A clone has git's mark.
const WITH_COMMIT: &str = "0.1.0 ($Format:%h$)";

/// Its version, and its commit where the text that it was built of has that.
pub(crate) fn version() -> &'static str {
    if WITH_COMMIT.ends_with("$)") {
        VERSION
    } else {
        WITH_COMMIT
    }
}
