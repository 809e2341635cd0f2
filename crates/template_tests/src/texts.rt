//! Template texts that tests of several crates load.

/// The worked templates, as examples/worked.json has them.
pub const WORKED: &str = r#"{"templates":[{"name":"Quote","id":1,"instructions":[
 {"kind":"uInt32","name":"Seq","operator":"increment"},{"kind":"string","name":"Sym","operator":"copy"},
 {"kind":"decimal","name":"Px","operator":"delta"},
 {"kind":"uInt32","name":"Qty","presence":"optional","operator":"copy"}]},{"name":"Wrap","id":2,"instructions":[
 {"kind":"uInt32","name":"A","operator":"increment"},{"kind":"uInt32","name":"B","operator":"delta"}]},
 {"name":"Opt","id":3,"instructions":[
 {"kind":"decimal","name":"Px","presence":"optional","exponent":{"operator":"default","value":"2"},
 "mantissa":{"operator":"copy"}},{"kind":"uInt32","name":"Flag","operator":"copy"}]},
 {"name":"Legs","id":4,"instructions":[{"kind":"sequence","name":"L","presence":"optional","instructions":[
 {"kind":"uInt32","name":"P"}]}]},{"name":"Marks","id":5,"instructions":[{"kind":"sequence","name":"L","instructions":[
 {"kind":"uInt32","name":"Q","operator":"copy"}]}]},{"name":"Bare","id":6,"instructions":[
 {"kind":"sequence","name":"L","instructions":[]}]},{"name":"Clash","id":7,"instructions":[
 {"kind":"uInt32","name":"A","operator":"copy","key":"K"},{"kind":"string","name":"B","operator":"copy","key":"K"}]},
 {"name":"Tail","id":8,"instructions":[{"kind":"string","name":"S","presence":"optional","operator":"tail"}]},
 {"name":"Init","id":9,"instructions":[
 {"kind":"string","name":"S","presence":"optional","operator":"tail","value":"ab"}]},
 {"name":"Delta","id":10,"instructions":[{"kind":"string","name":"S","operator":"delta"}]},
 {"name":"Common","instructions":[{"kind":"uInt32","name":"B","operator":"copy"}]},
 {"name":"Grp","id":11,"instructions":[{"kind":"group","name":"Hd","presence":"optional","instructions":[
 {"kind":"uInt32","name":"A","operator":"copy"}]},{"kind":"templateRef","name":"Common"}]},
 {"name":"Uni","id":12,"instructions":[{"kind":"string","charset":"unicode","name":"S","operator":"tail"}]},
 {"name":"Empty","id":13,"instructions":[{"kind":"uInt32","name":"A","presence":"optional","operator":"copy","key":"K"},
 {"kind":"uInt32","name":"B","operator":"delta","key":"K"}]},{"name":"Const","id":14,"instructions":[
 {"kind":"uInt32","name":"K","operator":"constant","value":"7"},
 {"kind":"uInt32","name":"O","presence":"optional","operator":"constant","value":"9"},
 {"kind":"uInt32","name":"D","operator":"default","value":"3"}]},{"name":"Fixed","id":15,"instructions":[
 {"kind":"decimal","name":"Px","exponent":{"operator":"constant","value":"-2"},"mantissa":{"operator":"delta"}},
 {"kind":"byteVector","name":"Raw","presence":"optional","operator":"copy"}]},{"name":"First","id":16,"instructions":[
 {"kind":"uInt32","name":"A"},{"kind":"uInt32","name":"B","operator":"copy"}]}]}"#;

/// Templates with fields of each kind.
pub const KINDS: &str =
    r#"{"templates":[{"name":"Bytes","id":1,"instructions":[{"kind":"byteVector","name":"B"}]},
 {"name":"MaybeBytes","id":2,"instructions":[{"kind":"byteVector","name":"B","presence":"optional"}]},
 {"name":"Text","id":3,"instructions":[{"kind":"string","charset":"unicode","name":"S"}]},
 {"name":"BytesDelta","id":4,"instructions":[{"kind":"byteVector","name":"B","operator":"delta"}]},
 {"name":"MaybeDelta","id":5,"instructions":[{"kind":"string","name":"S","presence":"optional","operator":"delta"}]},
 {"name":"Tail","id":6,"instructions":[{"kind":"string","name":"S","operator":"tail"}]},
 {"name":"MaybeTail","id":7,"instructions":[{"kind":"string","name":"S","presence":"optional","operator":"tail"}]},
 {"name":"BytesTail","id":8,"instructions":[{"kind":"byteVector","name":"B","presence":"optional","operator":"tail"}]},
 {"name":"MaybeDecimal","id":9,"instructions":[{"kind":"decimal","name":"D","presence":"optional"}]},
 {"name":"Parts","id":10,"instructions":[{"kind":"decimal","name":"D","exponent":{},"mantissa":{"operator":"delta"}}]},
 {"name":"Clash","id":11,"instructions":[{"kind":"uInt32","name":"A","operator":"copy","key":"K"},
 {"kind":"string","name":"B","operator":"tail","key":"K"}]},{"name":"Wide","id":12,"instructions":[
 {"kind":"uInt32","name":"A","operator":"copy"},{"kind":"uInt32","name":"B","operator":"copy"},
 {"kind":"uInt32","name":"C","operator":"copy"},{"kind":"uInt32","name":"D","operator":"copy"},
 {"kind":"uInt32","name":"E","operator":"copy"},{"kind":"uInt32","name":"F","operator":"copy"},
 {"kind":"uInt32","name":"G","operator":"copy"}]},{"name":"Signed","id":13,"instructions":[
 {"kind":"int32","name":"I","presence":"optional"}]}]}"#;

/// A number, and a sequence whose elements have no members.
pub const BARE: &str = r#"{"templates":[{"name":"Bare","id":1,"instructions":[
    {"kind":"uInt32","name":"A"},{"kind":"sequence","name":"L","instructions":[]}]}]}"#;

/// Seventeen templates, each of which refers to the next one twice; the last has one field. As one text it is proved much
/// faster than what would write it.
pub const DOUBLED: &str =
    r#"{"templates":[{"name":"N1","instructions":[{"kind":"templateRef","name":"N2"},
 {"kind":"templateRef","name":"N2"}]},{"name":"N2","instructions":[{"kind":"templateRef","name":"N3"},
 {"kind":"templateRef","name":"N3"}]},{"name":"N3","instructions":[{"kind":"templateRef","name":"N4"},
 {"kind":"templateRef","name":"N4"}]},{"name":"N4","instructions":[{"kind":"templateRef","name":"N5"},
 {"kind":"templateRef","name":"N5"}]},{"name":"N5","instructions":[{"kind":"templateRef","name":"N6"},
 {"kind":"templateRef","name":"N6"}]},{"name":"N6","instructions":[{"kind":"templateRef","name":"N7"},
 {"kind":"templateRef","name":"N7"}]},{"name":"N7","instructions":[{"kind":"templateRef","name":"N8"},
 {"kind":"templateRef","name":"N8"}]},{"name":"N8","instructions":[{"kind":"templateRef","name":"N9"},
 {"kind":"templateRef","name":"N9"}]},{"name":"N9","instructions":[{"kind":"templateRef","name":"N10"},
 {"kind":"templateRef","name":"N10"}]},{"name":"N10","instructions":[{"kind":"templateRef","name":"N11"},
 {"kind":"templateRef","name":"N11"}]},{"name":"N11","instructions":[{"kind":"templateRef","name":"N12"},
 {"kind":"templateRef","name":"N12"}]},{"name":"N12","instructions":[{"kind":"templateRef","name":"N13"},
 {"kind":"templateRef","name":"N13"}]},{"name":"N13","instructions":[{"kind":"templateRef","name":"N14"},
 {"kind":"templateRef","name":"N14"}]},{"name":"N14","instructions":[{"kind":"templateRef","name":"N15"},
 {"kind":"templateRef","name":"N15"}]},{"name":"N15","instructions":[{"kind":"templateRef","name":"N16"},
 {"kind":"templateRef","name":"N16"}]},{"name":"N16","instructions":[{"kind":"templateRef","name":"N17"},
 {"kind":"templateRef","name":"N17"}]},{"name":"N17","instructions":[{"kind":"uInt32","name":"F"}]}]}"#;
