//! Lines that are written, and what is answered of each, for tests of several crates.
#![tactic(auto)]

/// The templates of the lines.
pub const TEMPLATES: &str = r#"{"templates":[{"name":"Quote","id":1,"instructions":[
 {"kind":"uInt32","name":"Seq","operator":"increment"},{"kind":"string","name":"Sym","operator":"copy"},
 {"kind":"decimal","name":"Px","operator":"delta"},
 {"kind":"uInt32","name":"Qty","presence":"optional","operator":"copy"},
 {"kind":"byteVector","name":"B","presence":"optional"},
 {"kind":"string","charset":"unicode","name":"U","presence":"optional"},
 {"kind":"int64","name":"I","presence":"optional"}]},{"name":"Legs","id":4,"instructions":[
 {"kind":"sequence","name":"L","instructions":[{"kind":"uInt32","name":"P"},
 {"kind":"uInt32","name":"P","presence":"optional"}]},{"kind":"string","name":"K","operator":"constant","value":"x"}]},
 {"name":"NoId","instructions":[]},{"name":"Empty","id":9,"instructions":[]}]}"#;

/// A row each: a line that stands alone, and the digits that are written of it or what is said of it. (In a text, since
/// the proof of a table takes longer with each value in it.)
pub const ROWS: &str = r#"{ => refused Json line=1 template=0 instruction=0
[] => refused Line line=1 template=0 instruction=0
1 => refused Line line=1 template=0 instruction=0
{} => refused Line line=1 template=0 instruction=0
{"fields":{}} => refused Line line=1 template=0 instruction=0
{"id":9} => refused Line line=1 template=0 instruction=0
{"id":9,"fields":{}} => c089
{"template":"Empty","fields":{}} => c089
{"template":"Empty","id":9,"fields":{}} => c089
{"template":null,"id":9,"fields":{}} => c089
{"template":"Empty","id":null,"fields":{}} => c089
{"template":null,"id":null,"fields":{}} => refused Line line=1 template=0 instruction=0
{"fields":{},"id":9} => c089
 {"id": 9 , "fields" : { } }  => c089
{"id":9,"fields":{},"x":1} => refused Line line=1 template=0 instruction=0
{"id":9,"id":9,"fields":{}} => refused Line line=1 template=0 instruction=0
{"id":9,"fields":{},"fields":{}} => refused Line line=1 template=0 instruction=0
{"id":"9","fields":{}} => refused Line line=1 template=0 instruction=0
{"template":9,"fields":{}} => refused Line line=1 template=0 instruction=0
{"id":9,"fields":null} => refused Line line=1 template=0 instruction=0
{"id":9,"fields":[]} => refused Line line=1 template=0 instruction=0
{"id":9,"fields":{}} x => refused Json line=1 template=0 instruction=0
{"id":9,"fields":{}}{"id":9,"fields":{}} => refused Json line=1 template=0 instruction=0
{"id":9,"template":"Quote","fields":{}} => refused D9 line=1 template=0 instruction=0
{"template":"NoId","fields":{}} => refused D9 line=1 template=0 instruction=0
{"template":"Nope","fields":{}} => refused D9 line=1 template=0 instruction=0
{"id":5,"fields":{}} => refused D9 line=1 template=0 instruction=0
{"id":9.0,"fields":{}} => refused D9 line=1 template=0 instruction=0
{"id":-0,"fields":{}} => refused D9 line=1 template=0 instruction=0
{"id":4294967296,"fields":{}} => refused D9 line=1 template=0 instruction=0
{"id":9,"fields":{"A":1}} => refused Member line=1 template=9 instruction=0
{"id":1,"fields":{"Seq":1,"Sym":"AB","Px":1,"Zed":2}} => refused Member line=1 template=1 instruction=0
{"id":1,"fields":{"Seq":1,"Sym":"AB","Px":1,"Seq":2}} => refused Member line=1 template=1 instruction=0
{"id":1,"fields":{"Seq":1,"Px":1}} => refused Mismatch line=1 template=1 instruction=2
{"id":1,"fields":{"Seq":null,"Sym":"","Px":1}} => refused Mismatch line=1 template=1 instruction=1
{"id":4,"fields":{"K":"x","L":[{"P":5},{"P":5,"P":6},{"P":5,"P":null}]}} => c08483858085878580
{"id":4,"fields":{"L":[],"K":"x"}} => c08480
{"id":4,"fields":{"L":[{"P":5,"P":6,"P":7}],"K":"x"}} => refused Member line=1 template=4 instruction=1
{"id":4,"fields":{"L":[{}],"K":"x"}} => refused Mismatch line=1 template=4 instruction=2
{"id":4,"fields":{"L":[5],"K":"x"}} => refused Mismatch line=1 template=4 instruction=1
{"id":4,"fields":{"L":[null],"K":"x"}} => refused Mismatch line=1 template=4 instruction=1
{"id":4,"fields":{"L":[]}} => refused Mismatch line=1 template=4 instruction=4
{"id":4,"fields":{"L":[],"K":"y"}} => refused NotConstant line=1 template=4 instruction=4
{"template":"Quote","id":1,"fields":{"Seq":1,"Sym":"AB","Px":1e0,"Qty":null,"B":"0aff","U":"","I":-0}} => f0818141c28081830aff8181
{"template":"Quote","id":1,"fields":{"Seq":1,"Sym":"AB","Px":1e0,"Qty":null,"B":null,"U":null}} => f0818141c28081808080
{"template":"Quote","id":1,"fields":{"Seq":1,"Sym":"AB","Px":1e0,"Qty":null,"B":null,"U":null,"I":01}} => refused Json line=1 template=0 instruction=0
{"template":"Quote","id":1,"fields":{"Seq":1,"Sym":"AB","Px":1e0,"Qty":null,"B":null,"U":null,"I":1,}} => refused Json line=1 template=0 instruction=0
{"template":"Quote","id":1,"fields":{"Seq":1,"Sym":null,"Px":1e0,"Qty":null,"B":null,"U":null,"I":1}} => refused Mismatch line=1 template=1 instruction=2
{"template":"Empty","id":1,"fields":{}} => refused D9 line=1 template=0 instruction=0
{"template":"Legs","id":4,"fields":{"L":[{"P":5,"P":null},{"P":6,"P":7}],"K":"x"}} => c0848285808688
{"template":"Legs","id":4,"fields":{"L":[{"P":5,"P":null}{"P":6,"P":7}],"K":"x"}} => refused Json line=1 template=0 instruction=0
{"id":4,"fields":{"L":[}} => refused Json line=1 template=0 instruction=0
{"id":1,"fields":{"Seq":1,"Sym":"AB","Px":1}} => f0818141c28081808080
{"id":1,"fields":{"Px":1,"Seq":1,"Sym":"AB"}} => f0818141c28081808080
{"id":1,"fields":{"Seq":1,"Sym":"AB","Px":1,"Qty":null}} => f0818141c28081808080
{"id":1,"fields":{"Seq":1,"Sym":"AB","Px":1,"Qty":5}} => f8818141c2808186808080
{"id":1,"fields":{"Seq":1,"Sym":"AB","Px":1,"Qty":"7"}} => f8818141c2808188808080
{"id":1,"fields":{"Seq":1,"Sym":"AB","Px":1,"Qty":"x"}} => refused Mismatch line=1 template=1 instruction=4
{"id":1,"fields":{"Seq":1,"Sym":"AB","Px":1,"Qty":5.0}} => refused Mismatch line=1 template=1 instruction=4
{"id":1,"fields":{"Seq":1,"Sym":"AB","Px":1,"Qty":5e0}} => refused Mismatch line=1 template=1 instruction=4
{"id":1,"fields":{"Seq":1,"Sym":"AB","Px":1,"Qty":true}} => refused Mismatch line=1 template=1 instruction=4
{"id":1,"fields":{"Seq":1,"Sym":"AB","Px":1,"Qty":[]}} => refused Mismatch line=1 template=1 instruction=4
{"id":1,"fields":{"Seq":1,"Sym":"AB","Px":1,"Qty":-1}} => refused D2 line=1 template=1 instruction=4
{"id":1,"fields":{"Seq":1,"Sym":"AB","Px":1,"Qty":4294967296}} => refused D2 line=1 template=1 instruction=4
{"id":1,"fields":{"Seq":1,"Sym":"AB","Px":1,"Qty":01}} => refused Json line=1 template=0 instruction=0
{"id":1,"fields":{"Seq":1,"Sym":"AB","Px":1,"I":9223372036854775807}} => f0818141c28081808001000000000000000080
{"id":1,"fields":{"Seq":1,"Sym":"AB","Px":1,"I":9223372036854775808}} => refused D2 line=1 template=1 instruction=7
{"id":1,"fields":{"Seq":1,"Sym":"AB","Px":1,"I":-9223372036854775808}} => f0818141c2808180807f000000000000000080
{"id":1,"fields":{"Seq":1,"Sym":"AB","Px":"1.50e3"}} => f0818141c2810196808080
{"id":1,"fields":{"Seq":1,"Sym":"AB","Px":100e-2}} => f0818141c2fe00e4808080
{"id":1,"fields":{"Seq":1,"Sym":"AB","Px":1e63}} => f0818141c2bf81808080
{"id":1,"fields":{"Seq":1,"Sym":"AB","Px":1e64}} => refused R1 line=1 template=1 instruction=3
{"id":1,"fields":{"Seq":1,"Sym":"AB","Px":0e-63}} => f0818141c2c180808080
{"id":1,"fields":{"Seq":1,"Sym":"AB","Px":0.1e-63}} => refused R1 line=1 template=1 instruction=3
{"id":1,"fields":{"Seq":1,"Sym":"AB","Px":-0.0}} => f0818141c2ff80808080
{"id":1,"fields":{"Seq":1,"Sym":"AB","Px":9223372036854775808}} => refused R1 line=1 template=1 instruction=3
{"id":1,"fields":{"Seq":1,"Sym":"AB","Px":-9223372036854775808e0}} => f0818141c2807f000000000000000080808080
{"id":1,"fields":{"Seq":1,"Sym":"AB","Px":1e99999999999999999999999999}} => refused R1 line=1 template=1 instruction=3
{"id":1,"fields":{"Seq":1,"Sym":"AB","Px":1.}} => refused Json line=1 template=0 instruction=0
{"id":1,"fields":{"Seq":1,"Sym":"A\u007f\u0000\/\n","Px":1}} => f08181417f002f8a8081808080
{"id":1,"fields":{"Seq":1,"Sym":"A\u00e9","Px":1}} => refused Mismatch line=1 template=1 instruction=2
{"id":1,"fields":{"Seq":1,"Sym":5,"Px":1}} => refused Mismatch line=1 template=1 instruction=2
{"id":1,"fields":{"Seq":1,"Sym":"AB","Px":1,"B":"0aFF"}} => f0818141c28081830aff8080
{"id":1,"fields":{"Seq":1,"Sym":"AB","Px":1,"B":"0aF"}} => refused Mismatch line=1 template=1 instruction=5
{"id":1,"fields":{"Seq":1,"Sym":"AB","Px":1,"B":"0x"}} => refused Mismatch line=1 template=1 instruction=5
{"id":1,"fields":{"Seq":1,"Sym":"AB","Px":1,"B":5}} => refused Mismatch line=1 template=1 instruction=5
{"id":1,"fields":{"Seq":1,"Sym":"AB","Px":1,"U":"\u00e9é\ud834\udd1e"}} => f0818141c280818089c3a9c3a9f09d849e80
{"id":1,"fields":{"Seq":1,"Sym":"AB","Px":1,"U":"\ud83d\ude00"}} => f0818141c280818085f09f988080
{"id":1,"fields":{"Seq":1,"Sym":"AB","Px":1,"U":"\ud834"}} => refused Json line=1 template=0 instruction=0
{"id":1,"fields":{"Seq":1,"Sym":"AB","Px":1,"U":"\ude00"}} => refused Json line=1 template=0 instruction=0
{"id":1,"fields":{"Seq":1,"Sym":"AB","Px":1,"U":"\ude00\ud83d"}} => refused Json line=1 template=0 instruction=0
{"id":1,"fields":{"Seq":1,"Sym":"AB","Px":1,"U":"\ud834x"}} => refused Json line=1 template=0 instruction=0
"#;

/// A line, and what is answered of it: what is written of it as digits and a line feed, and what is said, which is nothing
/// where it is taken.
#[derive(Clone, Copy)]
pub struct LineRow<'a> {
    pub line: &'a str,
    pub out: &'a str,
    pub said: &'a str,
}

/// What a row has; nothing is written of one without an answer, and nothing said.
pub fn row_of(row: &str) -> LineRow<'_> {
    let (line, out, said) = match row.split_once(" => ") {
        Some((line, said)) if said.starts_with("refused") => (line, "\n", said),
        Some((line, out)) => (line, out, ""),
        None => (row, "", ""),
    };
    LineRow { line, out, said }
}
