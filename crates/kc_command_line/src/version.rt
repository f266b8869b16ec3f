//! The version of kconf. CHANGELOG.md and the manual page name it too, which `tools/check_man.sh` compares.

/// The version, by the rules of semantic versioning.
pub(crate) const VERSION: &str = "1.2.0";
