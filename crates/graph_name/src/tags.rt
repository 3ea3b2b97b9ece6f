// Tag lists: what a list holds, by place and by key, one tag set or removed, and a record's tags put in. A refusal leaves the list and the
// output as they were.
ghost use Rattle.std.specs.Prelude.{◌≡◌, length};
ghost use Rattle.model.specs.Opening.{number_of, value_or};
ghost use Rattle.model.specs.TagOutcome.{tag_count_in, tag_at_in, get_in, contains_in, insert_in, remove_in, set_graph_name_in, rest_given, list_with, output_with_removed};
ghost use Rattle.model.specs.Values.{one_if, is_present, length_of, part_start, part_size, key_start_of, key_size_of, value_start_of, value_size_of};

use results::{answer_out, count_out, number_of, part_out, removal_out, tag_parts_out};

// How many tags a list holds.
#[unsafe(no_mangle)]
pub extern "C" fn graph_name_tags_counts(list: &[u8], tags: &mut u64) -> u32
    ensures value { result ≡ number_of (tag_count_in list.now) }
    ensures tags_after { tags.new ≡ value_or tags.old (λ n. n) (tag_count_in list.now) }
{
    number_of(count_out(tag_list::counts(list), tags))
}

// The tag at a place, in ascending order of keys from 0: whether there is one, and where its key and its value stand in the list.
#[unsafe(no_mangle)]
pub extern "C" fn graph_name_tags_at(
    list: &[u8],
    place: u64,
    present: &mut u64,
    key_start: &mut u64,
    key_length: &mut u64,
    value_start: &mut u64,
    value_length: &mut u64,
) -> u32
    ensures value { result ≡ number_of (tag_at_in list.now place) }
    ensures present_after { present.new ≡ value_or present.old is_present (tag_at_in list.now place) }
    ensures key_start_after { key_start.new ≡ value_or key_start.old key_start_of (tag_at_in list.now place) }
    ensures key_length_after { key_length.new ≡ value_or key_length.old key_size_of (tag_at_in list.now place) }
    ensures value_start_after { value_start.new ≡ value_or value_start.old value_start_of (tag_at_in list.now place) }
    ensures value_length_after { value_length.new ≡ value_or value_length.old value_size_of (tag_at_in list.now place) }
{
    let tag = tag_list::tag_place(list, place as usize);
    number_of(tag_parts_out(
        tag,
        present,
        key_start,
        key_length,
        value_start,
        value_length,
    ))
}

// The value of a key: whether the list holds the key, and where its value stands in the list.
#[unsafe(no_mangle)]
pub extern "C" fn graph_name_tags_get(
    list: &[u8],
    key: &[u8],
    present: &mut u64,
    start: &mut u64,
    length: &mut u64,
) -> u32
    ensures value { result ≡ number_of (get_in list.now key.now) }
    ensures present_after { present.new ≡ value_or present.old is_present (get_in list.now key.now) }
    ensures start_after { start.new ≡ value_or start.old part_start (get_in list.now key.now) }
    ensures length_after { length.new ≡ value_or length.old part_size (get_in list.now key.now) }
{
    number_of(part_out(tag_list::get(list, key), present, start, length))
}

// Whether a list holds a key.
#[unsafe(no_mangle)]
pub extern "C" fn graph_name_tags_contains_key(list: &[u8], key: &[u8], answer: &mut u64) -> u32
    ensures value { result ≡ number_of (contains_in list.now key.now) }
    ensures answer_after { answer.new ≡ value_or answer.old one_if (contains_in list.now key.now) }
{
    number_of(answer_out(tag_list::contains_key(list, key), answer))
}

// Sets a key to a value.
#[unsafe(no_mangle)]
pub extern "C" fn graph_name_tags_insert(list: &mut [u8], key: &[u8], value: &[u8]) -> u32
    ensures value { result ≡ number_of (insert_in list.old key.now value.now) }
    ensures list_after { list.new ≡ list_with (insert_in list.old key.now value.now) list.old }
{
    number_of(tag_edits::insert(list, key, value))
}

// Removes a key: whether the list held it, and how many bytes of its value were written to the output. Nothing is removed if the value does
// not fit.
#[unsafe(no_mangle)]
pub extern "C" fn graph_name_tags_remove(
    list: &mut [u8],
    key: &[u8],
    out: &mut [u8],
    present: &mut u64,
    written: &mut u64,
) -> u32
    ensures value { result ≡ number_of (remove_in list.old key.now (length out.old)) }
    ensures list_after { list.new ≡ list_with (rest_given (remove_in list.old key.now (length out.old))) list.old }
    ensures out_after { out.new ≡ output_with_removed (remove_in list.old key.now (length out.old)) out.old }
    ensures present_after { present.new ≡ value_or present.old (λ v. is_present v.value) (remove_in list.old key.now (length out.old)) }
    ensures written_after { written.new ≡ value_or written.old (λ v. length_of v.value) (remove_in list.old key.now (length out.old)) }
{
    number_of(removal_out(tag_edits::remove(list, key, out), present, written))
}

// Puts a record's three tags into a list at once, and removes those that the record has not.
#[unsafe(no_mangle)]
pub extern "C" fn graph_name_tags_set_graph_name(list: &mut [u8], buffer: &[u8]) -> u32
    ensures value { result ≡ number_of (set_graph_name_in list.old buffer.now) }
    ensures list_after { list.new ≡ list_with (set_graph_name_in list.old buffer.now) list.old }
{
    number_of(graph_tags::set_graph_name(list, buffer))
}
