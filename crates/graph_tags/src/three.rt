// A record's three tags put into a tag list at once.
ghost use Rattle.std.specs.Prelude.{◌≡◌, true, length, map, take};
ghost use Rattle.std.specs.Option.{option_copied};
ghost use Rattle.model.specs.Opening.{is_some, settled};
ghost use Rattle.model.specs.Questions.{mapped};
ghost use Rattle.model.specs.Written.{fits};
ghost use Rattle.model.specs.TagList.{max_value, shown_tags, decode_tags};
ghost use Rattle.model.specs.TagOutcome.{judged_tags, set_graph_name_in, list_with};
ghost use Rattle.graph_tags.specs.Change.{pair_of, three_pairs, three_changed};

use crate::change::{Change, clear_absent, fill_present, is_full_then};
use export::set_tags;
use model::Fault;
use tag_list::{MAX_VALUE, TagList, check_list};
use text::{filled, part};

// What is made of a record's three tags, which come one by one, as the Rust has them.
fn three_changes<'a>(
    name: Option<&'a [u8]>,
    subgraph: Option<&'a [u8]>,
    translation: Option<&'a [u8]>,
) -> [Change<'a>; 3]
    ensures { map pair_of result ≡ three_pairs (option_copied name.entry) (option_copied subgraph.entry) (option_copied translation.entry) }
{
    [
        Change {
            key: b"pggname",
            value: name,
        },
        Change {
            key: b"subgraph",
            value: subgraph,
        },
        Change {
            key: b"translation",
            value: translation,
        },
    ]
}

// Puts the values of the three tags in, and removes those that are absent, unless there would be too many tags.
fn put_three(
    list: &mut [u8],
    name: Option<&[u8]>,
    subgraph: Option<&[u8]>,
    translation: Option<&[u8]>,
) -> Result<(), Fault>
    requires listed { is_some (decode_tags list.old) ≡ true }
    requires name { fits (option_copied name) max_value ≡ true }
    requires subgraph { fits (option_copied subgraph) max_value ≡ true }
    requires translation { fits (option_copied translation) max_value ≡ true }
    ensures value { result ≡ settled (judged_tags true (three_changed (option_copied name.entry) (option_copied subgraph.entry) (option_copied translation.entry) (shown_tags list.old))) }
    ensures list_after { list.new ≡ list_with (judged_tags true (three_changed (option_copied name.entry) (option_copied subgraph.entry) (option_copied translation.entry) (shown_tags list.old))) list.old }
{
    let changes = three_changes(name, subgraph, translation);
    if is_full_then(&TagList::of(list), &changes) {
        return Err(Fault::TagsFull);
    }
    clear_absent(list, &changes);
    fill_present(list, &changes);
    Ok(())
}

// The value of a tag that was written to the front of an output, if the record has the tag.
fn value_in<'a>(out: &'a [u8], size: Option<usize>) -> Option<&'a [u8]>
    ensures { option_copied result ≡ mapped (λ n. take n out.now) size }
{
    size.map(|n| part(out, 0, n))
}

// Puts a record's three tags into a list, by way of three outputs for their values.
#[tactic(auto, using(crate::proofs::Through::through))]
fn set_through(
    list: &mut [u8],
    buffer: &[u8],
    name: &mut [u8],
    subgraph: &mut [u8],
    translation: &mut [u8],
) -> Result<(), Fault>
    requires { (length name.old ≡ max_value) × (length subgraph.old ≡ max_value) × (length translation.old ≡ max_value) }
    ensures value { result ≡ settled (set_graph_name_in list.old buffer.now) }
    ensures list_after { list.new ≡ list_with (set_graph_name_in list.old buffer.now) list.old }
{
    match set_tags(buffer, name, subgraph, translation) {
        Ok(sizes) => {
            check_list(list)?;
            put_three(
                list,
                value_in(name, sizes.name),
                value_in(subgraph, sizes.subgraph),
                value_in(translation, sizes.translation),
            )
        }
        Err(fault) => {
            if fault != Fault::OutputShort {
                return Err(fault);
            }
            check_list(list)?;
            Err(Fault::LongValue)
        }
    }
}

// Puts a record's three tags into a list at once, and removes those that the record has not.
pub fn set_graph_name(list: &mut [u8], buffer: &[u8]) -> Result<(), Fault>
    ensures value { result ≡ settled (set_graph_name_in list.old buffer.now) }
    ensures list_after { list.new ≡ list_with (set_graph_name_in list.old buffer.now) list.old }
{
    let mut name: [u8; MAX_VALUE] = filled(0);
    let mut subgraph: [u8; MAX_VALUE] = filled(0);
    let mut translation: [u8; MAX_VALUE] = filled(0);
    set_through(list, buffer, &mut name, &mut subgraph, &mut translation)
}
