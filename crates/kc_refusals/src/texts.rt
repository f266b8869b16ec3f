//! The Kconfig that the checks read, and what the documents say of it.

/// The top file.
pub(crate) const KCONFIG: &str = r#"WHAT := SPEED
config NET
    bool "Network"
    default y
    imply LOG
    help
      Whether there is a network.

menu "Drivers"
    depends on NET
source "drivers"
endmenu
choice
    prompt "$(BUS)"
    default SLOW
config FAST
    bool "fast"
config SLOW
    bool "slow"
endchoice
"#;

/// The path of the file that it sources.
pub(crate) const DRIVERS_PATH: &str = "drivers";

/// That file.
pub(crate) const DRIVERS: &str = r#"config S
    string "s"
    default "d\"e"
config $(WHAT)
    int "Speed" if NET && \
        !(S = "x")
    range 1 5
    default 9
config LOG
    bool "Log"
config PORT
    hex "Port"
    default 0x1F
"#;

/// The files: the two of the Kconfig; a file that sources itself, one with a loop, and one that sources a file that is
/// missing; and a string with a default.
pub(crate) const FILES: [(&str, &str); 6] = [
    ("Kconfig", KCONFIG),
    (DRIVERS_PATH, DRIVERS),
    ("ring", "config A\nsource \"ring\"\n"),
    ("loop", LOOP),
    ("hole", "config A\n\tbool\nsource \"hole/$(BUS)\"\n"),
    ("string", "config S\n\tstring \"s\"\n\tdefault \"d\"\n"),
];

/// A Kconfig with a dependency loop.
const LOOP: &str =
    "config A\n\tbool \"a\"\n\tdepends on B\nconfig B\n\tbool \"b\"\n\tdepends on A\n";

/// The names in that loop.
pub(crate) const LOOP_NODES: &str = "A B";

/// The variables that are passed in. Of those with one name the last counts.
pub(crate) const PAIRS: [(&str, &str); 3] = [("BUS", "PCI"), ("OTHER", "o"), ("BUS", "Bus")];

/// Their logical lines: a path, a number, and the tokens, with the help text after them.
pub(crate) const LINES: &str = r#"Kconfig:2 config NET
Kconfig:3 bool "Network"
Kconfig:4 default y
Kconfig:5 imply LOG
Kconfig:6 help {Whether there is a network.
}
Kconfig:9 menu "Drivers"
Kconfig:10 depends on NET
drivers:1 config S
drivers:2 string "s"
drivers:3 default "d"e"
drivers:4 config <SPEED>
drivers:5 int "Speed" if NET && ! ( S = "x" )
drivers:7 range 1 5
drivers:8 default 9
drivers:9 config LOG
drivers:10 bool "Log"
drivers:11 config PORT
drivers:12 hex "Port"
drivers:13 default 0x1F
drivers:14 end
Kconfig:12 endmenu
Kconfig:13 choice
Kconfig:14 prompt "Bus"
Kconfig:15 default SLOW
Kconfig:16 config FAST
Kconfig:17 bool "fast"
Kconfig:18 config SLOW
Kconfig:19 bool "slow"
Kconfig:20 endchoice
Kconfig:21 end
"#;

/// A file of one symbol, which takes the place of the sourced file.
pub(crate) const OTHER_DRIVERS: &str = "config Z\n\tbool \"z\"\n";

/// The logical lines of that file.
pub(crate) const OTHER_LINES: &str = "drivers:1 config Z\ndrivers:2 bool \"z\"\ndrivers:3 end\n";

/// The user values of the checks.
pub(crate) const CONFIG: &str = r#"CONFIG_S="t"
CONFIG_U=y
CONFIG_S="u"
# CONFIG_LOG is not set
CONFIG_FAST=y
"#;

/// The values of that `.config` that count, in the order of their lines.
pub(crate) const ASSIGNS: &str = "S=u\nLOG=n\nFAST=y\n";

/// Its warnings: the line and the number of each.
pub(crate) const WARNINGS: &str = "2:1\n3:5\n";

/// What its lines say, by their numbers: a value, or the number of a warning.
pub(crate) const CONFIG_LINES: &str = "1 S=t\n2 1\n3 S=u\n4 LOG=n\n5 FAST=y\n";

/// The user values that it gives: of each symbol, and the chosen member of each choice.
pub(crate) const USER: &str = "S=u\nLOG=n\n0=FAST\n";

/// The visibility and the value of each symbol after that.
pub(crate) const NODE_VALUES: [(&str, &str, &str); 7] = [
    ("NET", "y", "y"),
    ("S", "y", "u"),
    ("SPEED", "y", "5"),
    ("LOG", "y", "n"),
    ("PORT", "y", "0x1F"),
    ("FAST", "y", "y"),
    ("SLOW", "y", "n"),
];

/// The reply to `list`.
pub(crate) const LIST: &str = r#"NET type=bool value=y vis=y can=n,y user=-
S type=string value="u" vis=y can=- user="u"
SPEED type=int value=5 vis=y can=- user=-
LOG type=bool value=n vis=y can=n,y user=n
PORT type=hex value=0x1F vis=y can=- user=-
FAST type=bool value=y vis=y can=y user=y
SLOW type=bool value=n vis=y can=y user=-
"#;

/// The reply to `choices`.
pub(crate) const CHOICES: &str = "choice 0 \"Bus\" mode=y sel=FAST user=FAST\n";

/// The reply to `config`.
pub(crate) const CONFIG_TEXT: &str = r#"CONFIG_NET=y

#
# Drivers
#
CONFIG_S="u"
CONFIG_SPEED=5
# CONFIG_LOG is not set
CONFIG_PORT=0x1F
# end of Drivers

CONFIG_FAST=y
# CONFIG_SLOW is not set
"#;

/// The reply to `config` without user values.
pub(crate) const DEFAULT_CONFIG_TEXT: &str = r#"CONFIG_NET=y

#
# Drivers
#
CONFIG_S="d\"e"
CONFIG_SPEED=5
CONFIG_LOG=y
CONFIG_PORT=0x1F
# end of Drivers

# CONFIG_FAST is not set
CONFIG_SLOW=y
"#;

/// The reply to `header`.
pub(crate) const HEADER: &str = r#"#define CONFIG_NET 1
#define CONFIG_S "u"
#define CONFIG_SPEED 5
#define CONFIG_PORT 0x1F
#define CONFIG_FAST 1
"#;

/// The reply to `defconfig`.
pub(crate) const DEFCONFIG: &str = r#"CONFIG_S="u"
# CONFIG_LOG is not set
CONFIG_FAST=y
"#;

/// The reply to `new`.
pub(crate) const NEW: &str = r#"CONFIG_NET=y
CONFIG_SPEED=5
CONFIG_PORT=0x1F
"#;

/// The body of a load, long enough that its memory grows while its lines are read.
pub(crate) const BODY: &str = r#"CONFIG_S="v"
CONFIG_NET=y
# a comment that is longer than the lines before it, so that they don't stay where they were kept at first
CONFIG_U=y
# CONFIG_SLOW is not set
# another comment, which is longer than all that stands before it, so that once more a greater place has to be found
# for the lines of the body, and the last request for memory of its reading is made when it is nearly at its end
CONFIG_S="w"
"#;

/// The reply to a load of that body, and to a merge.
pub(crate) const BODY_WARNINGS: &str = "warning 4 1\nwarning 8 5\n";

/// The user values after a load of that body.
pub(crate) const USER_LOADED: &str = "NET=y\nS=w\n";

/// The user values after a merge of that body.
pub(crate) const USER_MERGED: &str = "NET=y\nS=w\nLOG=n\n0=FAST\n";

/// The user values after a merge of that body, and of the `.config` above after it.
pub(crate) const USER_MERGED_BACK: &str = "NET=y\nS=u\nLOG=n\n0=FAST\n";

/// The user values after `set S x`.
pub(crate) const USER_SET: &str = "S=x\nLOG=n\n0=FAST\n";

/// The replies to a stream of `set S x`, a load of the body, `show S` and a line that is no command.
pub(crate) const REPLIES: &str =
    "ok\nwarning 4 1\nwarning 8 5\nok\nS type=string value=\"w\" vis=y can=- user=\"w\"\nok\nrefused 1\n";

/// The replies where `set S x` is refused, the load, or `show S`, each with the user values that it leaves. The lines of
/// the load's body are taken in each case.
pub(crate) const REFUSED_REPLIES: [(&str, &str); 3] = [
    (
        "refused 7\nwarning 4 1\nwarning 8 5\nok\nS type=string value=\"w\" vis=y can=- user=\"w\"\nok\nrefused 1\n",
        USER_LOADED,
    ),
    (
        "ok\nrefused 7\nS type=string value=\"x\" vis=y can=- user=\"x\"\nok\nrefused 1\n",
        USER_SET,
    ),
    (
        "ok\nwarning 4 1\nwarning 8 5\nok\nrefused 7\nrefused 1\n",
        USER_LOADED,
    ),
];
