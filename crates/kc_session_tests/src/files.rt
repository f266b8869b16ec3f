//! Calls of kc_files that no command of a session makes: texts with a header and with another prefix, a limit, and
//! how much memory a `.config` takes.
ghost use Rattle.kc_value.specs.UserValues.{IsUserFor};

use crate::listed::Listed;
use crate::serving::{in_session, prefix, replies_in};
use crate::table::{rows, three_fields};
use kc_files::{
    Assign, Load, Prefix, ReadFault, Warning, apply, config_text, defconfig_text, header_text,
    new_text, read_config,
};
use kc_session::Session;
use kc_tree::Tree;
use kc_value::{Fresh, KeptValues, Resolver, User};
use std::alloc::{AllocError, Global};
use std::test::Fail;

/// Kconfigs, commands, and the texts after them: the `.config`, the header, the default file and the list of new
/// symbols, each after a line that names it.
const TEXTS: &str = r#"
 |  | .config\nheader\ndefault file\nnew\n
menu "M"\nconfig A\nbool "a"\nendmenu\nconfig C\nbool "c"\ndefault y\n | set A y\n | .config\n\n#\n# M\n#\nCONFIG_A=y\n# end of M\n\nCONFIG_C=y\nheader\n#define CONFIG_A 1\n#define CONFIG_C 1\ndefault file\nCONFIG_A=y\nnew\nCONFIG_C=y\n
config X\nbool "x"\nselect Y\nconfig Y\nbool "y"\ndepends on Z\nconfig Z\nbool "z"\n | set X y\n | .config\nCONFIG_X=y\nCONFIG_Y=y\n# CONFIG_Z is not set\nheader\n#define CONFIG_X 1\n#define CONFIG_Y 1\ndefault file\nCONFIG_X=y\nnew\nCONFIG_Z=n\n
config S\nstring "s"\ndefault "d"\nconfig N\nint "n"\nrange 1 5\ndefault 9\nconfig H\nhex "h"\ndefault 0x1f\n | set S a"b\\\nset H 0x1F\n | .config\nCONFIG_S="a\"b\\\\"\nCONFIG_N=5\nCONFIG_H=0x1F\nheader\n#define CONFIG_S "a\"b\\\\"\n#define CONFIG_N 5\n#define CONFIG_H 0x1F\ndefault file\nCONFIG_S="a\"b\\\\"\nCONFIG_H=0x1F\nnew\nCONFIG_N=5\n
choice\nprompt "c"\nconfig P\nbool "p"\nconfig Q\nbool "q"\nendchoice\n | set Q y\n | .config\n# CONFIG_P is not set\nCONFIG_Q=y\nheader\n#define CONFIG_Q 1\ndefault file\nCONFIG_Q=y\nnew\n
config MODULES\ndef_bool y\nmodules\nconfig T\ntristate "t"\ndefault m\nconfig U\ntristate "u"\n | set U m\n | .config\nCONFIG_MODULES=y\nCONFIG_T=m\nCONFIG_U=m\nheader\n#define CONFIG_MODULES 1\n#define CONFIG_T_MODULE 1\n#define CONFIG_U_MODULE 1\ndefault file\nCONFIG_U=m\nnew\nCONFIG_T=m\n
// A tristate that is selected, an int outside of its range, and a choice with what makes a member visible.
config MODULES\ndef_bool y\nmodules\nconfig S\ntristate "s"\nselect T\nconfig T\ntristate "t" if m\ndefault y\n | set S m\nset T n\n | .config\nCONFIG_MODULES=y\nCONFIG_S=m\nCONFIG_T=m\nheader\n#define CONFIG_MODULES 1\n#define CONFIG_S_MODULE 1\n#define CONFIG_T_MODULE 1\ndefault file\nCONFIG_S=m\nCONFIG_T=m\nnew\n
config D\nbool "d"\nchoice\nprompt "ch"\ndefault B\nconfig A\nbool "a"\nconfig B\nbool "b"\nconfig C\nbool "c" if D\nendchoice\n |  | .config\n# CONFIG_D is not set\n# CONFIG_A is not set\nCONFIG_B=y\nheader\n#define CONFIG_B 1\ndefault file\nnew\nCONFIG_D=n\nCONFIG_B=y\n
config D\nbool "d"\nchoice\nprompt "ch"\ndefault B\nconfig A\nbool "a"\nconfig B\nbool "b"\nconfig C\nbool "c" if D\nendchoice\n | set C y\nset D y\n | .config\nCONFIG_D=y\n# CONFIG_A is not set\n# CONFIG_B is not set\nCONFIG_C=y\nheader\n#define CONFIG_D 1\n#define CONFIG_C 1\ndefault file\nCONFIG_D=y\nCONFIG_C=y\nnew\n
"#;

/// Prefixes, each with a header of the `.config`.
const FORMS: [(&str, &str); 4] = [
    ("CONFIG_", ""),
    ("", "# Made by a tool.\n"),
    (
        "FW_",
        "#\n# Automatically generated file; DO NOT EDIT.\n#\n",
    ),
    // A header is taken as it is.
    ("A", "# \"é\\"),
];

/// The texts of a resolver with this prefix and this header.
fn texts<R: Resolver>(
    alloc: Global,
    resolver: &mut R,
    prefix: &Prefix,
    header: &str,
) -> Result<String, AllocError> {
    let config = config_text(alloc, resolver, prefix, header)?;
    let header = header_text(alloc, resolver, prefix)?;
    let default = defconfig_text(alloc, resolver, prefix)?;
    let new = new_text(alloc, resolver, prefix)?;
    format!(in alloc; ".config\n{config}header\n{header}default file\n{default}new\n{new}")
}

/// The `.config` of a tree with the user values of a file alone.
fn alone_text(alloc: Global, tree: &Tree, prefix: &Prefix, file: &str) -> Result<String, Fail> {
    let mut user = User::empty(alloc, tree)?;
    Ok(loaded_text(alloc, tree, &mut user, prefix, file)?)
}

/// The same once the file is loaded in user values.
fn loaded_text(
    alloc: Global,
    tree: &Tree,
    user: &mut User,
    prefix: &Prefix,
    file: &str,
) -> Result<String, ReadFault>
    requires { IsUserFor tree.now user.old }
{
    let (assigns, _) = read_config(alloc, tree, prefix, file.as_bytes())?;
    apply(tree, user, assigns, Load::Replace);
    let mut resolver = Fresh::new(alloc, tree, user);
    Ok(config_text(alloc, &mut resolver, prefix, "")?)
}

/// Wants the default file of a session to give its `.config` where it is loaded alone.
fn load_default(alloc: Global, session: &mut Session, prefix: &Prefix) -> Result<(), Fail> {
    let want = config_text(alloc, session, prefix, "")?;
    let file = defconfig_text(alloc, session, prefix)?;
    let found = alone_text(alloc, session.tree(), prefix, file.as_str())?;
    if found.as_str() == want.as_str() {
        return Ok(());
    }
    Err(Fail::new(format!(in alloc; "{found}, not {want}")?))
}

/// The same over a fresh resolver, for the tree and the user values of a session.
fn fresh_texts(
    alloc: Global,
    session: &Session,
    prefix: &Prefix,
    header: &str,
) -> Result<String, AllocError> {
    let mut resolver = Fresh::new(alloc, session.tree(), session.user());
    texts(alloc, &mut resolver, prefix, header)
}

/// The same over a list of values.
fn listed_texts(
    alloc: Global,
    session: &mut Session,
    prefix: &Prefix,
    header: &str,
) -> Result<String, AllocError> {
    let (_, mut meter) = KeptValues::new(alloc, session.tree())?.into_parts();
    session.fill_all()?;
    let mut resolver = Listed::of(alloc, &session.solved(), &mut meter)?;
    texts(alloc, &mut resolver, prefix, header)
}

/// Wants these texts of a fresh resolver, of the session and of a list of values, in a form.
fn compare_texts(
    alloc: Global,
    session: &mut Session,
    form: (&str, &str),
    want: &str,
) -> Result<(), Fail> {
    let (prefix, header) = form;
    let want = want.replace(alloc, "CONFIG_", prefix)?;
    let want = want.as_str().replacen(alloc, ".config\n", header, 1)?;
    let prefix = Prefix::new(alloc, prefix)?;
    let fresh = fresh_texts(alloc, session, &prefix, header)?;
    let kept = texts(alloc, session, &prefix, header)?;
    let listed = listed_texts(alloc, session, &prefix, header)?;
    for found in [fresh, kept, listed] {
        if found.as_str().strip_prefix(".config\n") != Some(want.as_str()) {
            return Err(Fail::new(format!(in alloc; "{found}, not {want}")?));
        }
    }
    load_default(alloc, session, &prefix)
}

/// Wants texts after commands in each form.
fn compare_forms(
    alloc: Global,
    session: &mut Session,
    commands: &str,
    want: &str,
) -> Result<(), Fail> {
    let _ = replies_in(alloc, session, commands)?;
    for form in FORMS {
        compare_texts(alloc, session, form, want)?;
    }
    Ok(())
}

#[test]
fn resolvers_give_the_texts(rt: HostRuntime) -> Result<(), Fail> {
    let alloc = rt.alloc();
    for row in rows(alloc, TEXTS)? {
        let (kconfig, commands, want) = three_fields(alloc, row)?;
        in_session(alloc, kconfig.as_str(), |alloc, session| {
            compare_forms(alloc, session, commands.as_str(), want.as_str())
        })?;
    }
    Ok(())
}

/// The most assignments or warnings that a file of a few lines takes room for.
const MOST_ROOM: usize = 64;

/// How many assignments and warnings were read, and whether they take little room or much.
fn show_room(
    alloc: Global,
    assigns: &Vec<Assign>,
    warnings: &Vec<Warning>,
) -> Result<String, AllocError> {
    let is_little = assigns.capacity() <= MOST_ROOM && warnings.capacity() <= MOST_ROOM;
    let (assigns, warnings) = (assigns.len(), warnings.len());
    let room = if is_little { "little" } else { "much" };
    format!(in alloc; "{assigns} {warnings} {room}")
}

/// What reading a `.config` gives, or that it is past the limit.
fn show_reading(alloc: Global, tree: &Tree, config: &[u8]) -> Result<String, Fail> {
    let prefix = prefix(alloc)?;
    match read_config(alloc, tree, &prefix, config) {
        Ok((assigns, warnings)) => Ok(show_room(alloc, &assigns, &warnings)?),
        Err(ReadFault::Limit) => Ok(String::from_str(alloc, "limit")?),
        Err(fault) => Err(Fail::from(fault)),
    }
}

/// Wants this reading of a `.config` of a tree with one symbol A.
fn compare_reading(alloc: Global, config: &str, want: &str) -> Result<(), Fail> {
    let found = in_session(alloc, "config A\nbool \"a\"\n", |alloc, session| {
        show_reading(alloc, session.tree(), config.as_bytes())
    })?;
    if found.as_str() == want {
        return Ok(());
    }
    let length = config.len();
    Err(Fail::new(format!(in alloc; "{found} of {length} bytes, not {want}")?))
}

#[test]
fn a_config_has_at_most_16_mebibytes(rt: HostRuntime) -> Result<(), Fail> {
    let alloc = rt.alloc();
    compare_reading(alloc, "", "0 0 little")?;
    compare_reading(alloc, "CONFIG_A=y\nCONFIG_U=y\nCONFIG_A=m\n", "1 2 little")?;
    compare_reading(
        alloc,
        "\n".repeat(alloc, 16_777_216)?.as_str(),
        "0 0 little",
    )?;
    compare_reading(alloc, "\n".repeat(alloc, 16_777_217)?.as_str(), "limit")
}
