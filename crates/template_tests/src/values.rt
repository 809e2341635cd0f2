//! Values, keys and what asks for a bit.

use crate::base::*;
use fast_template::{
    ByteString, Key, Name, Part, Scope, UnicodeText, has_map, needs_bit, part_needs_bit,
};
use test_rows::list;

fn key(alloc: Global, scope: Scope, text: &str, part: Part) -> Tried<Key> {
    Ok(Key {
        slot: 3,
        scope,
        name: Name::of(alloc, text)?,
        part,
    })
}

// A value of a row.
#[derive(Clone, Copy)]
enum Value {
    U32(u32),
    I32(i32),
    U64(u64),
    I64(i64),
    Decimal(i32, i64),
    Ascii(&'static [u8]),
    Unicode(&'static str),
    Bytes(&'static [u8]),
}

impl Value {
    fn scalar(self, alloc: Global) -> Tried<Scalar> {
        Ok(match self {
            Value::U32(number) => Scalar::U32(number),
            Value::I32(number) => Scalar::I32(number),
            Value::U64(number) => Scalar::U64(number),
            Value::I64(number) => Scalar::I64(number),
            Value::Decimal(exponent, mantissa) => Scalar::Decimal { exponent, mantissa },
            Value::Ascii(text) => Scalar::Ascii(ByteString::from_vec(text.to_vec(alloc)?)),
            Value::Unicode(text) => {
                Scalar::Unicode(UnicodeText::from_string(String::from_str(alloc, text)?))
            }
            Value::Bytes(bytes) => Scalar::Bytes(ByteString::from_vec(bytes.to_vec(alloc)?)),
        })
    }
}

#[test]
fn copies_of_values_are_equal(rt: HostRuntime) -> Tried {
    const VALUES: &[Value] = list! {
        Value::U32(4294967295), Value::I32(-7942755), Value::U64(18446744073709551615),
        Value::I64(-9223372036854775808), Value::Decimal(-2, 942755), Value::Ascii(b"GEM6"), Value::Unicode("é"),
        Value::Bytes(&[0x0A, 0xFF])
    };
    for value in VALUES {
        let value = value.scalar(rt.alloc())?;
        same(&rt, value.copy(rt.alloc())?, value);
    }
    Ok(())
}

#[test]
fn copies_of_keys_are_equal(rt: HostRuntime) -> Tried {
    let scope = Scope::User(Name::of(rt.alloc(), "mine")?);
    let key = key(rt.alloc(), scope, "L", Part::Length)?;
    same(&rt, key.copy()?, key);
    Ok(())
}

#[test]
fn a_text_is_filled_again(rt: HostRuntime) -> Tried {
    let text = UnicodeText::from_string(String::from_str(rt.alloc(), "é")?);
    same(&rt, text.as_bytes(), [0xC3, 0xA9].as_slice());
    same(&rt, text.as_str(), "é");
    let mut bytes = text.into_bytes();
    bytes.clear();
    let text = UnicodeText::from_utf8(bytes);
    same(&rt, text.into_string().as_str(), "");
    Ok(())
}

// A field whose key is its own.
fn field(alloc: Global) -> Tried<FieldPart> {
    Ok(FieldPart {
        number: 1,
        part: Part::Whole,
        kind: Kind::Int64,
        presence: Presence::Mandatory,
        operator: Operator::Plain,
        initial: None,
        key: key(alloc, Scope::Global, "F", Part::Whole)?,
    })
}

#[test]
fn bits_are_asked_for(rt: HostRuntime) -> Tried {
    // an operator, and whether a mandatory and an optional field of it ask for a bit
    const ROWS: &[(Operator, bool, bool)] = rows! {
        Operator::Plain, false, false;
        Operator::Constant, false, true;
        Operator::Default, true, true;
        Operator::Copy, true, true;
        Operator::Increment, true, true;
        Operator::Delta, false, false;
        Operator::Tail, true, true;
    };
    let mut field = field(rt.alloc())?;
    for (operator, mandatory, optional) in ROWS {
        field.operator = *operator;
        field.presence = Presence::Mandatory;
        same(&rt, part_needs_bit(&field), *mandatory);
        field.presence = Presence::Optional;
        same(&rt, part_needs_bit(&field), *optional);
    }
    Ok(())
}

// A decimal whose mantissa alone asks for a bit.
const DECIMAL: &[u8] = br#"{"templates":[{"name":"D","id":1,"instructions":[
    {"kind":"decimal","name":"Px","exponent":{"operator":"delta"},"mantissa":{"operator":"copy"}}]}]}"#;

#[test]
fn a_map_is_asked_for_by_a_mantissa(rt: HostRuntime) -> Tried {
    let set = loaded(&rt, TemplateSet::from_json(rt.alloc(), DECIMAL))?;
    let members = members_of(set.find(1));
    same(&rt, members.len(), 1);
    for decimal in members {
        same(&rt, needs_bit(decimal), false);
    }
    same(&rt, has_map(members), true);
    same(&rt, has_map(&[]), false);
    Ok(())
}

// Of one name, the key of an exponent is before that of a mantissa.
#[test]
fn keys_are_ordered(rt: HostRuntime) -> Tried {
    let exponent = key(rt.alloc(), Scope::Global, "Px", Part::Exponent)?;
    let mantissa = key(rt.alloc(), Scope::Global, "Px", Part::Mantissa)?;
    same(
        &rt,
        [exponent < mantissa, exponent != mantissa],
        [true, true],
    );
    Ok(())
}
