// The options of a command.
ghost use Rattle.std.specs.Prelude.{◌≡◌, ◌≤◌, IfSome, None, false};
ghost use Rattle.std.specs.Option.{option_map};
ghost use Rattle.pgo_words.specs.Numbers.{number_within};
ghost use Rattle.pgo_words.specs.Table.{at_most_once, reads_file, reads_flag, settings_of};
ghost use Rattle.pgo_words.specs.Values.{given_value, now_of, settings_value, texts_of};

use crate::given::Given;
use crate::numbers::number_within;

/// Which options a command has.
#[derive(Clone, Copy, Debug, Drop)]
pub struct Allowed {
    pub steps: bool,
    pub workers: bool,
    pub profile: bool,
    pub entry_first: bool,
    pub places: bool,
    pub room: bool,
    pub peel: bool,
}

/// The command has no option.
pub const NO_OPTIONS: Allowed = Allowed {
    steps: false,
    workers: false,
    profile: false,
    entry_first: false,
    places: false,
    room: false,
    peel: false,
};

/// The options of a command, with their defaults.
#[derive(Clone, Copy, Debug, Drop)]
pub struct Settings<'a> {
    pub steps: u64,
    pub workers: u32,
    pub profile: Option<&'a str>,
    pub entry_first: bool,
    pub places: u32,
    pub room: u32,
    pub peel: u32,
}

// The form of a number option: how many digits it may have, its least and greatest value, and its default.
#[derive(Clone, Copy, Drop)]
struct NumberForm {
    digits: usize,
    least: u64,
    greatest: u64,
    default: u64,
}

const STEPS: NumberForm = NumberForm {
    digits: 13,
    least: 1,
    greatest: 1_099_511_627_776,
    default: 1_000_000,
};

const WORKERS: NumberForm = NumberForm {
    digits: 13,
    least: 1,
    greatest: 64,
    default: 1,
};

const PLACES: NumberForm = NumberForm {
    digits: 2,
    least: 1,
    greatest: 24,
    default: 8,
};

const ROOM: NumberForm = NumberForm {
    digits: 4,
    least: 1,
    greatest: 4_096,
    default: 64,
};

const PEEL: NumberForm = NumberForm {
    digits: 3,
    least: 1,
    greatest: 100,
    default: 50,
};

/// The options that were given, each at most once and one of the command's.
pub fn settings_of<'a>(may: Allowed, given: &Given<'a>) -> Option<Settings<'a>>
    ensures { option_map settings_value result ≡ settings_of may (given_value given.now) }
{
    let steps = number(may.steps, &given.steps, STEPS)?;
    let workers = number(may.workers, &given.workers, WORKERS)?;
    let profile = file(may.profile, &given.profile)?;
    let entry_first = flag(may.entry_first, &given.entry_first)?;
    let places = number(may.places, &given.places, PLACES)?;
    let room = number(may.room, &given.room, ROOM)?;
    let peel = number(may.peel, &given.peel, PEEL)?;
    Some(Settings {
        steps,
        workers: workers as u32,
        profile,
        entry_first,
        places: places as u32,
        room: room as u32,
        peel: peel as u32,
    })
}

// What is given for an option that stands for a number.
fn number(may: bool, texts: &[&str], form: NumberForm) -> Option<u64>
    requires { form.default ≤ form.greatest }
    ensures number { result ≡ at_most_once may form.default (number_within form.digits form.least form.greatest) (texts_of texts.now) }
    ensures most { IfSome result (λ n. n ≤ form.greatest) }
{
    match texts {
        [] => Some(form.default),
        [text] if may => number_within(text, form.digits, form.least, form.greatest),
        _ => None,
    }
}

// What is given for an option that names a file.
fn file<'a>(may: bool, texts: &[&'a str]) -> Option<Option<&'a str>>
    ensures { option_map (option_map now_of) result ≡ at_most_once may None reads_file (texts_of texts.now) }
{
    match texts {
        [] => Some(None),
        [text] if may && !text.is_empty() => Some(Some(text)),
        _ => None,
    }
}

// Whether an option without a value is given.
fn flag(may: bool, texts: &[&str]) -> Option<bool>
    ensures { result ≡ at_most_once may false reads_flag (texts_of texts.now) }
{
    match texts {
        [] => Some(false),
        [_] if may => Some(true),
        _ => None,
    }
}
