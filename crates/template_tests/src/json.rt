//! Texts that are loaded.

use crate::base::*;
use crate::loads::Wanted::{Fault, Loaded};
use crate::loads::answers;
use crate::texts::DOUBLED;
use fast_build::LoadCause::{
    Cycle, D8, DuplicateId, DuplicateName, S1, S2, S3, S4, S5, TooDeep, TooMany,
};

// A text is loaded, or has this fault.
fn is_judged(rt: &impl Abort, alloc: Global, text: &str, wanted: Wanted) -> Tried {
    answers(rt, TemplateSet::from_json(alloc, text.as_bytes()), wanted)
}

// The text of one template of these instructions.
fn one(alloc: Global, instructions: &str) -> Tried<String> {
    format!(in alloc; r#"{{"templates":[{{"name":"A","instructions":[{instructions}]}}]}}"#)
}

// What is wanted of a text.
struct Row {
    text: &'static str,
    wanted: Wanted,
}

#[test]
fn texts_are_judged(rt: HostRuntime) -> Tried {
    const ROWS: &[Row] = rows! { Row { text, wanted }:
        // of another shape
        r#"{"templates":["#, Fault(S1, 0, 0);
        "[]", Fault(S1, 0, 0);
        "{}", Fault(S1, 0, 0);
        r#"{"templates":{}}"#, Fault(S1, 0, 0);
        r#"{"templates":[],"more":1}"#, Fault(S1, 0, 0);
        r#"{"templates":[],"dictionary":""}"#, Fault(S1, 0, 0);
        r#"{"templates":[],"dictionary":1}"#, Fault(S1, 0, 0);
        r#"{"templates":[{"name":"A","instructions":[],"id":01}]}"#, Fault(S1, 0, 0);
        // with a template of another shape
        r#"{"templates":[1]}"#, Fault(S1, 1, 0);
        r#"{"templates":[{"name":"A"}]}"#, Fault(S1, 1, 0);
        r#"{"templates":[{"instructions":[]}]}"#, Fault(S1, 1, 0);
        r#"{"templates":[{"name":"A","instructions":[],"id":1.0}]}"#, Fault(S1, 1, 0);
        r#"{"templates":[{"name":"A","instructions":[],"id":-0}]}"#, Fault(S1, 1, 0);
        r#"{"templates":[{"name":"A","instructions":[],"id":4294967296}]}"#, Fault(S1, 1, 0);
        r#"{"templates":[{"name":"A","instructions":[],"id":"1"}]}"#, Fault(S1, 1, 0);
        r#"{"templates":[{"name":"A","instructions":[],"id":null}]}"#, Fault(S1, 1, 0);
        r#"{"templates":[{"name":"A","instructions":[],"typeref":"T"}]}"#, Fault(S1, 1, 0);
        r#"{"templates":[{"name":"","instructions":[]},{"name":"B","instructions":[]}]}"#, Fault(S1, 1, 0);
        // a bad name in the first template, and a bad shape in the second
        r#"{"templates":[{"name":"","instructions":[]},{"name":"B"}]}"#, Fault(S1, 2, 0);
        // with templates that stand beside others
        r#"{"templates":[]}"#, Loaded;
        r#"{"templates":[{"name":"A","instructions":[{"kind":"templateRef","name":"A"}]}]}"#, Fault(Cycle, 1, 0);
        r#"{"templates":[{"name":"A","instructions":[{"kind":"templateRef","name":"Nobody"}]}]}"#, Fault(D8, 1, 1);
        r#"{"templates":[{"name":"A","instructions":[]},{"name":"A","instructions":[]}]}"#, Fault(DuplicateName, 2, 0);
        r#"{"templates":[{"name":"A","id":1,"instructions":[]},{"name":"B","id":1,"instructions":[]}]}"#, Fault(DuplicateId, 2, 0);
        DOUBLED, Fault(TooMany, 1, 0);
    };
    for row in ROWS {
        is_judged(&rt, rt.alloc(), row.text, row.wanted)?;
    }
    Ok(())
}

#[test]
fn instructions_are_judged(rt: HostRuntime) -> Tried {
    const ROWS: &[Row] = rows! { Row { text, wanted }:
        r#"{"kind":"string","name":"F","operator":"increment"}"#, Fault(S2, 1, 1);
        r#"{"kind":"uInt32","name":"F","operator":"copy","value":"x"}"#, Fault(S3, 1, 1);
        r#"{"kind":"uInt32","name":"F","operator":"constant"}"#, Fault(S4, 1, 1);
        r#"{"kind":"uInt32","name":"F","operator":"default"}"#, Fault(S5, 1, 1);
        r#"{"kind":"templateRef","name":"Nobody"}"#, Fault(D8, 1, 1);
        r#"{"kind":"templateRef","name":"A"}"#, Fault(Cycle, 1, 0);
        r#"{"kind":"uInt32","name":""}"#, Fault(S1, 1, 1);
        // a name is judged only once all shapes are
        r#"{"kind":"uInt32","name":""},{"kind":"x","name":"F"}"#, Fault(S1, 1, 2);
        // an exponent's checks come before its mantissa's
        r#"{"kind":"decimal","name":"F",
                "exponent":{"operator":"copy","value":"64"},"mantissa":{"operator":"tail"}}"#, Fault(S3, 1, 1);
        // a mantissa alone: the exponent is as if it were empty
        r#"{"kind":"decimal","name":"F","mantissa":{"operator":"copy"}}"#, Loaded;
        r#"{"kind":"uInt32","name":"F","presence":"optional","operator":"default"}"#, Loaded;
        r#"{"kind":"uInt32","name":"F","operator":"copy","value":"4294967296"}"#, Fault(S3, 1, 1);
        // of another shape
        "1", Fault(S1, 1, 1);
        r#"{"name":"F"}"#, Fault(S1, 1, 1);
        r#"{"kind":"uint32","name":"F"}"#, Fault(S1, 1, 1);
        r#"{"kind":"uInt32"}"#, Fault(S1, 1, 1);
        r#"{"kind":"uInt32","name":"F","value":"1"}"#, Fault(S1, 1, 1);
        r#"{"kind":"uInt32","name":"F","key":"K"}"#, Fault(S1, 1, 1);
        r#"{"kind":"uInt32","name":"F","charset":"ascii"}"#, Fault(S1, 1, 1);
        r#"{"kind":"uInt32","name":"F","operator":"copy","value":1}"#, Fault(S1, 1, 1);
        r#"{"kind":"uInt32","name":"F","presence":"maybe"}"#, Fault(S1, 1, 1);
        r#"{"kind":"decimal","name":"F","operator":"copy","exponent":{}}"#, Fault(S1, 1, 1);
        r#"{"kind":"templateRef","name":"A","presence":"optional"}"#, Fault(S1, 1, 1);
        // a group's own shape comes before that of its members
        r#"{"kind":"group","name":"G","instructions":[1],"key":"K"}"#, Fault(S1, 1, 1);
        r#"{"kind":"sequence","name":"L","instructions":[],"length":{"kind":"uInt32"}}"#, Fault(S1, 1, 1);
        r#"{"kind":"group","name":"G","instructions":[{"kind":"uInt32","name":"F"},1]}"#, Fault(S1, 1, 3);
        // nine groups, each in the one before, and eight
        r#"{"kind":"group","name":"G","instructions":[{"kind":"group","name":"G","instructions":[
                {"kind":"group","name":"G","instructions":[{"kind":"group","name":"G","instructions":[
                {"kind":"group","name":"G","instructions":[{"kind":"group","name":"G","instructions":[
                {"kind":"group","name":"G","instructions":[{"kind":"group","name":"G","instructions":[
                {"kind":"group","name":"G","instructions":[
                ]}]}]}]}]}]}]}]}]}"#, Fault(TooDeep, 1, 0);
        r#"{"kind":"group","name":"G","instructions":[{"kind":"group","name":"G","instructions":[
                {"kind":"group","name":"G","instructions":[{"kind":"group","name":"G","instructions":[
                {"kind":"group","name":"G","instructions":[{"kind":"group","name":"G","instructions":[
                {"kind":"group","name":"G","instructions":[{"kind":"group","name":"G","instructions":[
                ]}]}]}]}]}]}]}]}"#, Loaded;
    };
    for row in ROWS {
        let text = one(rt.alloc(), row.text)?;
        is_judged(&rt, rt.alloc(), &text, row.wanted)?;
    }
    Ok(())
}

#[test]
fn of_a_key_that_stands_twice_the_last_is_read(rt: HostRuntime) -> Tried {
    let wanted = Wanted::Fault(LoadCause::S1, 0, 0);
    answers(&rt, TemplateSet::from_json(rt.alloc(), &[0xFF]), wanted)?;
    let twice = "{\"templates\":[{\"id\":\"x\",\"name\":\"A\",\"id\":7,\"instructions\":[]}]}";
    let set = loaded(&rt, TemplateSet::from_json(rt.alloc(), twice.as_bytes()))?;
    same(&rt, set.name(7), Some("A"));
    Ok(())
}
