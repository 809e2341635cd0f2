//! The worked templates.

use crate::base::*;
use crate::texts::WORKED;
use fast_template::Name;

// What one value is read and written by, behind a mark: its kind, presence and operator, the name of its key, and its
// initial value.
fn list_part(mark: &str, part: &FieldPart, text: &mut String) -> Tried {
    let (kind, presence, operator) = (part.kind, part.presence, part.operator);
    let name = part.key.name.as_str();
    write!(text, "{mark}{kind:?} {presence:?} {operator:?} {name}")?;
    match part.initial() {
        None => Ok(()),
        Some(Scalar::U32(number)) => write!(text, " {number}"),
        Some(Scalar::I32(number)) => write!(text, " {number}"),
        Some(Scalar::Ascii(characters)) => write!(text, " {:?}", characters.as_slice()),
        Some(_) => text.push_str(" of another kind"),
    }
}

// An instruction: its name and number, its presence, and its parts.
fn list_one(flat: &Flat, text: &mut String) -> Tried {
    let (Flat::Field {
        name,
        number,
        presence,
        ..
    }
    | Flat::Parts {
        name,
        number,
        presence,
        ..
    }
    | Flat::Group {
        name,
        number,
        presence,
        ..
    }
    | Flat::Sequence {
        name,
        number,
        presence,
        ..
    }) = flat;
    write!(text, "{} {number} {presence:?}", name.as_str())?;
    match flat {
        Flat::Field { whole, .. } => list_part(": ", whole, text),
        Flat::Parts {
            exponent,
            mantissa,
            ..
        } => {
            list_part(": ", exponent, text)?;
            list_part(", ", mantissa, text)
        }
        Flat::Group { .. } => Ok(()),
        Flat::Sequence { length, .. } => list_part(": ", length, text),
    }
}

// A flat list, that of a group or a sequence in brackets.
fn list_of(flats: &[Flat], text: &mut String) -> Tried {
    for flat in flats {
        list_one(flat, text)?;
        if let Flat::Group { members, .. } | Flat::Sequence { members, .. } = flat {
            text.push_str(" [")?;
            list_of(members, text)?;
            text.push_str("]")?;
        }
        text.push_str("; ")?;
    }
    Ok(())
}

// A template's identifier and name, and its flat list.
type Row = (u32, &'static str, &'static str);

// These are listed so, and there is no template 17.
fn all_listed(rt: &impl Abort, set: &TemplateSet, rows: &[Row], text: &mut String) -> Tried {
    same(rt, set.find(17).is_none(), true);
    same(rt, set.name(17), None);
    for (id, name, list) in rows {
        same(rt, set.name(*id), Some(*name));
        text.clear();
        list_of(members_of(set.find(*id)), text)?;
        same(rt, text.as_str(), list);
    }
    Ok(())
}

#[test]
fn the_worked_templates_have_these_flat_lists(rt: HostRuntime) -> Tried {
    const ROWS: &[Row] = rows! {
        1, "Quote", "Seq 1 Mandatory: UInt32 Mandatory Increment Seq; Sym 2 Mandatory: Ascii Mandatory Copy Sym; \
            Px 3 Mandatory: Decimal Mandatory Delta Px; Qty 4 Optional: UInt32 Optional Copy Qty; ";
        2, "Wrap", "A 1 Mandatory: UInt32 Mandatory Increment A; B 2 Mandatory: UInt32 Mandatory Delta B; ";
        3, "Opt", "Px 1 Optional: Int32 Optional Default Px 2, Int64 Mandatory Copy Px; \
            Flag 2 Mandatory: UInt32 Mandatory Copy Flag; ";
        4, "Legs", "L 1 Optional: UInt32 Optional Plain L [P 2 Mandatory: UInt32 Mandatory Plain P; ]; ";
        5, "Marks", "L 1 Mandatory: UInt32 Mandatory Plain L [Q 2 Mandatory: UInt32 Mandatory Copy Q; ]; ";
        6, "Bare", "L 1 Mandatory: UInt32 Mandatory Plain L []; ";
        7, "Clash", "A 1 Mandatory: UInt32 Mandatory Copy K; B 2 Mandatory: Ascii Mandatory Copy K; ";
        8, "Tail", "S 1 Optional: Ascii Optional Tail S; ";
        9, "Init", "S 1 Optional: Ascii Optional Tail S [97, 98]; ";
        10, "Delta", "S 1 Mandatory: Ascii Mandatory Delta S; ";
        11, "Grp", "Hd 1 Optional [A 2 Mandatory: UInt32 Mandatory Copy A; ]; B 3 Mandatory: UInt32 Mandatory Copy B; ";
        12, "Uni", "S 1 Mandatory: Unicode Mandatory Tail S; ";
        13, "Empty", "A 1 Optional: UInt32 Optional Copy K; B 2 Mandatory: UInt32 Mandatory Delta K; ";
        14, "Const", "K 1 Mandatory: UInt32 Mandatory Constant K 7; O 2 Optional: UInt32 Optional Constant O 9; \
            D 3 Mandatory: UInt32 Mandatory Default D 3; ";
        15, "Fixed", "Px 1 Mandatory: Int32 Mandatory Constant Px -2, Int64 Mandatory Delta Px; \
            Raw 2 Optional: Bytes Optional Copy Raw; ";
        16, "First", "A 1 Mandatory: UInt32 Mandatory Plain A; B 2 Mandatory: UInt32 Mandatory Copy B; ";
    };
    let set = loaded(&rt, TemplateSet::from_json(rt.alloc(), WORKED.as_bytes()))?;
    all_listed(&rt, &set, ROWS, &mut String::new(rt.alloc()))
}

// What may be lent to another thread, and nothing else.
fn lent<T: Send + Sync>(shared: &T) -> &T {
    shared
}

#[test]
fn a_set_can_be_lent_to_other_threads(rt: HostRuntime) -> Tried {
    let set = loaded(&rt, TemplateSet::from_json(rt.alloc(), WORKED.as_bytes()))?;
    same(&rt, lent(&set).slots(), set.slots());
    Ok(())
}
