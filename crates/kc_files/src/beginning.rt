//! The beginning of a text.

ghost use Rattle.std.specs.Prelude.{◌≡◌, option_map};
ghost use Rattle.kc_files.specs.ReadingSteps.{after};

/// What comes after the beginning of a text, if it has this beginning.
pub(crate) fn after<'c>(start: &[u8], text: &'c [u8]) -> Option<&'c [u8]>
    ensures { option_map (λ rest. rest.now) result ≡ after start.now text.now }
{
    text.strip_prefix(start)
}
