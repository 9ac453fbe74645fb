// The sites that the data of a unit tell.
ghost use Rattle.std.specs.Prelude.{◌≡◌};
ghost use Rattle.check_counting.specs.Sites as sites;
ghost use Rattle.ir_rules.specs.Units as units;

use ir_tree::Init;

/// The fourth of four literals, and 0 of another initialiser.
pub(crate) fn sites_in(init: &Init) -> u64
    ensures { result ≡ units.sites_in (units.as_data (units.literals_of init.now)) }
{
    match init {
        Init::List(items) => sites_in_list(items.as_slice()),
        Init::Int(_)
        | Init::Null
        | Init::Symbol(_)
        | Init::Zero
        | Init::Bytes(_)
        | Init::External => 0,
    }
}

#[tactic(auto, using(crate::proofs::Literals::four_of, crate::proofs::Literals::not_four))]
fn sites_in_list(items: &[Init]) -> u64
    ensures { result ≡ units.sites_in (units.as_data (sites.literals_in_list items.now)) }
{
    if items.len() != 4 {
        return 0;
    }
    fourth(
        literal(&items[0]),
        literal(&items[1]),
        literal(&items[2]),
        literal(&items[3]),
    )
}

fn fourth(a: Option<u64>, b: Option<u64>, c: Option<u64>, d: Option<u64>) -> u64
    ensures { result ≡ sites.fourth a b c d }
{
    match (a, b, c, d) {
        (Some(_), Some(_), Some(_), Some(sites)) => sites,
        (None, _, _, _)
        | (Some(_), None, _, _)
        | (Some(_), Some(_), None, _)
        | (Some(_), Some(_), Some(_), None) => 0,
    }
}

fn literal(init: &Init) -> Option<u64>
    ensures { result ≡ units.literal_of init.now }
{
    match init {
        Init::Int(value) => Some(*value),
        Init::Null
        | Init::Symbol(_)
        | Init::Zero
        | Init::Bytes(_)
        | Init::List(_)
        | Init::External => None,
    }
}
