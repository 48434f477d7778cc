// A mapping as text: sixteen hex digits, two for each mask, that of state 0 first.
#![tactic(auto)]

ghost use Rattle.std.specs.Prelude.{◌≡◌, ◌+◌, ◌≤◌, length};
ghost use Rattle.text.specs.Writing.{Wrote};
ghost use Rattle.maptext.specs.MappingText.{mapping_text, parse_mapping, field_means};

use mappings::Mapping;

// The sixteen digits of a mapping.
pub fn put_mapping(out: &mut [u8], start: usize, mapping: Mapping) -> usize
    requires { start + 16 ≤ length out.old }
    ensures { Wrote out.old start (mapping_text mapping.masks) out.new result }
{
    let mut at = start;
    for mask in mapping.masks {
        at = text::put_hex(out, at, 2, mask as u64);
    }
    at
}

// The mapping that a field says, which is exactly sixteen hex digits of either case.
pub fn read_mapping(field: &[u8]) -> Option<Mapping>
    ensures { field_means result ≡ parse_mapping field.now }
{
    if field.len() != 16 {
        return None;
    }
    let mut masks = [0u8; mappings::STATES];
    fields::read_bytes(field, &mut masks)?;
    Some(Mapping { masks })
}
