//! Names without the prefix that they have in a `.config`.

ghost use Rattle.std.specs.Prelude.{◌≡◌};
ghost use Rattle.std.specs.Option.{option_copied};
ghost use Rattle.kc_names.specs.BareNames.{bare_name, bare_word, without_prefix};

/// What comes after the prefix that a name begins with.
fn without_prefix<'n>(prefix: &str, name: &'n str) -> Option<&'n str>
    ensures { option_copied result ≡ without_prefix prefix.now name.now }
{
    name.strip_prefix(prefix)
}

/// A name without a prefix, if it begins with that, and else the name itself.
pub fn bare_name<'n>(prefix: &str, name: &'n str) -> &'n str
    ensures { result.now ≡ bare_name prefix.now name.now }
{
    match without_prefix(prefix, name) {
        Some(bare) => bare,
        None => name,
    }
}

/// What comes after the prefix that a name begins with, if the prefix is not empty.
pub fn bare_word<'n>(prefix: &str, name: &'n str) -> Option<&'n str>
    ensures { option_copied result ≡ bare_word prefix.now name.now }
{
    if prefix.is_empty() {
        return None;
    }
    without_prefix(prefix, name)
}
