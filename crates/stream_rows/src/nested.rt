//! Groups and sequences in eight levels, which is as deep as they may be.

use test_rows::rows;

/// Groups, groups that may be absent, sequences, and one in the other, around a number.
pub const NESTED: &str = r#"{"templates":[
{"name":"Groups","id":1,"instructions":[{"kind":"group","name":"G1","instructions":[{"kind":"group","name":"G2","instructions":[
  {"kind":"group","name":"G3","instructions":[{"kind":"group","name":"G4","instructions":[
  {"kind":"group","name":"G5","instructions":[{"kind":"group","name":"G6","instructions":[
  {"kind":"group","name":"G7","instructions":[{"kind":"group","name":"G8","instructions":[
  {"kind":"uInt32","name":"A","operator":"copy"}]}]}]}]}]}]}]}]}]},
{"name":"Maybe","id":2,"instructions":[{"kind":"group","name":"G1","presence":"optional","instructions":[
  {"kind":"group","name":"G2","presence":"optional","instructions":[
  {"kind":"group","name":"G3","presence":"optional","instructions":[
  {"kind":"group","name":"G4","presence":"optional","instructions":[
  {"kind":"group","name":"G5","presence":"optional","instructions":[
  {"kind":"group","name":"G6","presence":"optional","instructions":[
  {"kind":"group","name":"G7","presence":"optional","instructions":[
  {"kind":"group","name":"G8","presence":"optional","instructions":[
  {"kind":"uInt32","name":"A","operator":"copy"}]}]}]}]}]}]}]}]}]},
{"name":"Rows","id":3,"instructions":[{"kind":"sequence","name":"S1","instructions":[{"kind":"sequence","name":"S2","instructions":[
  {"kind":"sequence","name":"S3","instructions":[{"kind":"sequence","name":"S4","instructions":[
  {"kind":"sequence","name":"S5","instructions":[{"kind":"sequence","name":"S6","instructions":[
  {"kind":"sequence","name":"S7","instructions":[{"kind":"sequence","name":"S8","instructions":[
  {"kind":"uInt32","name":"A","operator":"copy"}]}]}]}]}]}]}]}]}]},
{"name":"Mixed","id":4,"instructions":[{"kind":"group","name":"G1","instructions":[{"kind":"sequence","name":"S2","instructions":[
  {"kind":"group","name":"G3","instructions":[{"kind":"sequence","name":"S4","instructions":[
  {"kind":"group","name":"G5","instructions":[{"kind":"sequence","name":"S6","instructions":[
  {"kind":"group","name":"G7","instructions":[{"kind":"sequence","name":"S8","instructions":[
  {"kind":"uInt32","name":"A","operator":"copy"}]}]}]}]}]}]}]}]}]}]}"#;

/// A stream that is canonical itself, from reset, how many messages it has, and their lines.
pub struct Nested {
    pub stream: &'static [u8],
    pub messages: u64,
    pub lines: &'static str,
}

/// Rows of these templates.
pub const NESTED_ROWS: &[Nested] = rows! { Nested { stream, messages, lines }:
    b"\xc0\x81\xc0\x85\x80\x80", 2, "1 Groups G1={G2={G3={G4={G5={G6={G7={G8={A=5}}}}}}}}\n\
            1 Groups G1={G2={G3={G4={G5={G6={G7={G8={A=5}}}}}}}}\n";
    b"\xe0\x82\xc0\xc0\xc0\xc0\xc0\xc0\xc0\xc0\x85\xa0\xc0\xc0\xc0\xc0\xc0\xc0\x80\x80", 3,
        "2 Maybe G1={G2={G3={G4={G5={G6={G7={G8={A=5}}}}}}}}\n2 Maybe G1={G2={G3={G4={G5={G6={G7={G8=-}}}}}}}\n\
            2 Maybe G1=-\n";
    b"\xc0\x83\x81\x81\x81\x81\x81\x81\x81\x82\xc0\x85\x80", 1,
        "3 Rows S1=[{S2=[{S3=[{S4=[{S5=[{S6=[{S7=[{S8=[{A=5} {A=5}]}]}]}]}]}]}]}]\n";
    b"\xc0\x84\x81\x81\x81\x82\xc0\x85\x80", 1, "4 Mixed G1={S2=[{G3={S4=[{G5={S6=[{G7={S8=[{A=5} {A=5}]}}]}}]}}]}\n";
};
