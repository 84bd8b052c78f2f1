//! Tests of mk_cert_text: how certificates are written and read.

use mk_cert_text::{
    CertTextFault, Certificate, Finish, PackedNames, Way, Ways, certificate_text, read_certificate,
};
use std::alloc::{AllocError, Global};
use std::process::Abort;
use std::str;
use std::test::Fail;
use tests_tables::rows;

/// A certificate with three ways.
const THREE: &str = concat!(
    r#"{"format":1,"goals":["p"],"ways":[{"end":"source","file":"a.c","path":["a.o"],"#,
    r#""recipe":"a.o"},{"end":"written","file":"a.o","path":["p","a.o"],"recipe":"p"},"#,
    r#"{"end":"source","file":"a.c","path":["p","a.o"],"recipe":"p"}]}"#,
);

/// The certificate `THREE` in short form.
const THREE_WAYS: &str = "goals p; a.o a.c source a.o; p a.o written p a.o; p a.c source p a.o";

/// The certificate `THREE` with its ways and keys in another order, and with white space.
const SHUFFLED: &str = r#" {"ways": [{"recipe":"p","path":["p","a.o"],"file":"a.c","end":"source"},
 {"end":"source","file":"a.c","path":["a.o"],"recipe":"a.o"},
 {"file":"a.o","end":"written","recipe":"p","path":["p","a.o"]}], "goals":["p"], "format":1}
"#;

/// The certificate `SHUFFLED` in short form.
const SHUFFLED_WAYS: &str = "goals p; p a.c source p a.o; a.o a.c source a.o; p a.o written p a.o";

/// JSON values, and what they are read as.
const OBJECTS: &str = r#"[] => refused 72 top
1 => refused 72 top
"x" => refused 72 top
null => refused 72 top
{} => refused 72 format
{"format":2,"goals":[],"ways":[]} => refused 72 format
{"format":0,"goals":[],"ways":[]} => refused 72 format
{"format":-1,"goals":[],"ways":[]} => refused 72 format
{"format":1.0,"goals":[],"ways":[]} => refused 72 format
{"format":1e0,"goals":[],"ways":[]} => refused 72 format
{"format":-0,"goals":[],"ways":[]} => refused 72 format
{"format":18446744073709551616,"goals":[],"ways":[]} => refused 72 format
{"format":18446744073709551617,"goals":[],"ways":[]} => refused 72 format
{"format":"1","goals":[],"ways":[]} => refused 72 format
{"format":[1],"goals":[],"ways":[]} => refused 72 format
{"format":true,"goals":[],"ways":[]} => refused 72 format
{"format":null,"goals":[],"ways":[]} => refused 72 format
{"goals":[],"ways":[]} => refused 72 format
{"format":2,"goals":0,"ways":0,"x":0} => refused 72 format
{"format":1,"goals":[],"ways":[]} => goals
{"format":2,"format":1,"goals":[],"ways":[]} => goals
{"format":1,"format":2,"goals":[],"ways":[]} => refused 72 format
{"format":1,"goals":["p","q"],"ways":[]} => goals p q
{"format":1,"goals":["q","p","q"],"ways":[]} => goals q p q
{"format":1} => refused 72 goals
{"format":1,"ways":[]} => refused 72 goals
{"format":1,"goals":"p","ways":[]} => refused 72 goals
{"format":1,"goals":{},"ways":[]} => refused 72 goals
{"format":1,"goals":null,"ways":[]} => refused 72 goals
{"format":1,"goals":[1],"ways":[]} => refused 72 goals
{"format":1,"goals":["p",["q"]],"ways":[]} => refused 72 goals
{"format":1,"goals":["p","./q"],"ways":[]} => refused 72 goals
{"format":1,"goals":[""],"ways":[]} => refused 72 goals
{"format":1,"goals":["a b"],"ways":[]} => refused 72 goals
{"format":1,"goals":["."],"ways":0,"x":0} => refused 72 goals
{"format":1,"goals":["."],"ways":[0]} => refused 72 goals
{"format":1,"goals":[]} => refused 72 ways
{"format":1,"goals":[],"ways":{}} => refused 72 ways
{"format":1,"goals":[],"ways":"w"} => refused 72 ways
{"format":1,"goals":[],"ways":null} => refused 72 ways
{"format":1,"goals":[],"ways":{},"x":0} => refused 72 ways
{"format":1,"goals":[],"ways":[],"x":0} => refused 72 unknown
{"format":1,"goals":[],"ways":[],"top":0} => refused 72 unknown
{"format":1,"goals":[],"ways":[],"unknown":0} => refused 72 unknown
{"format":1,"goals":[],"ways":[],"end":"always"} => refused 72 unknown
{"format":1,"goals":[],"ways":[],"Goals":[]} => refused 72 unknown
{"":0,"format":1,"goals":[],"ways":[0]} => refused 72 unknown
{"format":1,"goals":[],"ways":[{}],"x":0} => refused 72 unknown
{"format":1,"goals":[],"ways":[0]} => refused 72 ways
{"format":1,"goals":[],"ways":[null]} => refused 72 ways
{"format":1,"goals":[],"ways":["w"]} => refused 72 ways
{"format":1,"goals":[],"ways":[[]]} => refused 72 ways
{"ways":[],"goals":[],"format":1} => goals
{"ways":[{"end":"always","file":"f","path":[],"recipe":"r"}],"format":1,"goals":["p"]} => goals p
    ; r f always
{"\u0066ormat":1,"goals":["\u0070\/q"],"ways":[]} => goals p/q
{"ways":[0],"format":1,"goals":[],"ways":[]} => goals
{"ways":[],"format":1,"goals":[],"ways":[0]} => refused 72 ways
{"ways":[{"x":0}],"format":1,"goals":[],"ways":{}} => refused 72 ways
{"ways":{},"format":1,"goals":[],"ways":[]} => goals
{"goals":0,"format":1,"goals":["p"],"ways":[]} => goals p
{"goals":["p"],"format":1,"goals":["."],"ways":[]} => refused 72 goals
{"ways":[0],"x":[{"y":[1e4,true,null,"z",-0,{}]}],"goals":0,"format":2} => refused 72 format
{"ways":[0],"x":{"x":[]},"goals":0,"format":1} => refused 72 goals
{"ways":[0],"x":0,"goals":[],"format":1} => refused 72 unknown
{"format":1,"goals":[],"ways":[],"x":1e308} => refused 72 unknown
{"format":1,"goals":[],"ways":[],"x":1e309} => refused 71
{"format":1,"goals":[],"ways":[],"x":-1e309} => refused 71
{"format":1,"goals":[],"ways":[],"x":{"y":[0,1e309]}} => refused 71
{"format":1e309,"goals":[],"ways":[]} => refused 71
{"format":1,"goals":[1e309],"ways":[]} => refused 71
{"format":1,"goals":1e309,"ways":[]} => refused 71
{"format":1,"goals":[],"ways":[1e309]} => refused 71
{"format":1,"goals":[],"ways":[{"end":1e309}]} => refused 71
1e309 => refused 71
[1e309] => refused 71
{"format":1,"goals":[],"ways":[0],} => refused 71
{"format":1,"goals":[],"ways":[0,tru]} => refused 71
{"format":1,"goals":[],"ways":[{"end":1},{"end":"\x"}]} => refused 71
{"format":1,"goals":[],"ways":[0]}} => refused 71
{"format":1,"goals":[],"ways":[0]} 0 => refused 71
{"format":2,"goals":[}} => refused 71
{"format":2,"x":[}} => refused 71
{"format":2,"x":{]} => refused 71
{"format":2,"x":{"y"}} => refused 71
{"format":2,"x"} => refused 71
{"format":2,1:0} => refused 71
{"format":2 "goals":0} => refused 71
{"format":1,"goals":[],"ways":[{"end":"always"]} => refused 71
{"format":1,"goals":[],"ways":[{"path":["r"}]} => refused 71
[} => refused 71
{ => refused 71
{} x => refused 71
{}{} => refused 71
{"format":1,"goals":[],"ways":[],} => refused 71
{"format":01,"goals":[],"ways":[]} => refused 71
{"format":1,"goals":["\ud800"],"ways":[]} => refused 71
"#;

/// Lists of ways, and what an object with them and without goals is read as.
const WAYS: &str =
    r#"[{"end":"written","file":"f","path":["r","s"],"recipe":"r"}] => goals; r f written r s
[{"end":"source","file":"f","path":["r"],"recipe":"r"}] => goals; r f source r
[{"end":"always","file":"/f","path":["../r"],"recipe":"é"}] => goals; é /f always ../r
[{"end":"always","file":"f","path":[],"recipe":"r"}] => goals; r f always
[{"end":"written","end":"always","file":"f","path":[],"recipe":"r"}] => goals; r f always
[{"end":"always","file":"f","path":[],"recipe":"r"},
    {"end":"always","file":"f","path":[],"recipe":"r"}] => goals; r f always; r f always
[{}] => refused 72 end
[{"file":"f","path":["r"],"recipe":"r"}] => refused 72 end
[{"end":1,"file":"f","path":["r"],"recipe":"r"}] => refused 72 end
[{"end":null,"file":"f","path":["r"],"recipe":"r"}] => refused 72 end
[{"end":["written"],"file":"f","path":["r"],"recipe":"r"}] => refused 72 end
[{"end":"","file":"f","path":["r"],"recipe":"r"}] => refused 72 end
[{"end":"Written","file":"f","path":["r"],"recipe":"r"}] => refused 72 end
[{"end":"sources","file":"f","path":["r"],"recipe":"r"}] => refused 72 end
[{"end":"alway","file":0,"path":0,"recipe":0,"x":0}] => refused 72 end
[{"end":"written","path":["r"],"recipe":"r"}] => refused 72 file
[{"end":"written","file":1,"path":["r"],"recipe":"r"}] => refused 72 file
[{"end":"written","file":["f"],"path":["r"],"recipe":"r"}] => refused 72 file
[{"end":"written","file":"","path":["r"],"recipe":"r"}] => refused 72 file
[{"end":"written","file":"./f","path":["r"],"recipe":"r"}] => refused 72 file
[{"end":"written","file":"f/","path":0,"recipe":0,"x":0}] => refused 72 file
[{"end":"written","x":0}] => refused 72 file
[{"end":"written","file":"f","recipe":"r"}] => refused 72 path
[{"end":"written","file":"f","path":"r","recipe":"r"}] => refused 72 path
[{"end":"written","file":"f","path":{},"recipe":"r"}] => refused 72 path
[{"end":"written","file":"f","path":[1],"recipe":"r"}] => refused 72 path
[{"end":"written","file":"f","path":["r",null],"recipe":"r"}] => refused 72 path
[{"end":"written","file":"f","path":["r","a/.."],"recipe":"r"}] => refused 72 path
[{"end":"written","file":"f","path":["."],"recipe":0,"x":0}] => refused 72 path
[{"end":"written","file":"f","path":["r"]}] => refused 72 recipe
[{"end":"written","file":"f","path":["r"],"recipe":1}] => refused 72 recipe
[{"end":"written","file":"f","path":["r"],"recipe":["r"]}] => refused 72 recipe
[{"end":"written","file":"f","path":["r"],"recipe":"/"}] => refused 72 recipe
[{"end":"written","file":"f","path":["r"],"recipe":"a b","x":0}] => refused 72 recipe
[{"end":"written","file":"f","path":["r"],"recipe":"r","x":0}] => refused 72 unknown
[{"end":"written","file":"f","path":["r"],"recipe":"r","format":1}] => refused 72 unknown
[{"end":"written","file":"f","path":["r"],"recipe":"r","unknown":0}] => refused 72 unknown
[{"end":"written","file":"f","path":["r"],"recipe":"r","x":0},0] => refused 72 unknown
[{"end":"written","file":"f","path":["r"],"recipe":"r"},0] => refused 72 ways
[{"end":"written","file":"f","path":["r"],"recipe":"r"},{}] => refused 72 end
[{"end":"written","file":"f","path":["r"],"recipe":0},0] => refused 72 recipe
[{"end":"always","file":0,"file":"f","path":[0],"path":["r","s"],"recipe":0,
    "recipe":"r"}] => goals; r f always r s
[{"end":"always","file":"f","path":[],"recipe":"r","file":0}] => refused 72 file
[{"end":"always","file":"f","path":[],"recipe":"r","path":[0]}] => refused 72 path
[{"x":{"end":[0]},"end":"always","file":"f","path":[],"recipe":"r"}] => refused 72 unknown
[{"recipe":0,"path":0,"file":0,"end":0}] => refused 72 end
[{"recipe":0,"path":0,"file":0,"end":"always"}] => refused 72 file
[{"recipe":0,"path":0,"file":"f","end":"always"}] => refused 72 path
[0,{}] => refused 72 ways
"#;

/// Appends names, each after a space.
fn push_names(shown: &mut String, names: &PackedNames) -> Result<(), AllocError> {
    for place in 0..names.len() {
        shown.push(' ')?;
        shown.push_str(names.at(place))?;
    }
    Ok(())
}

/// Appends a way.
fn push_way(alloc: Global, shown: &mut String, way: &Way<'_>) -> Result<(), Fail> {
    let front = format!(in alloc; "; {} {} {}", way.recipe, way.file, way.finish)?;
    shown.push_str(front.as_str())?;
    for place in 0..way.path.len() {
        shown.push(' ')?;
        shown.push_str(way.path.at(place))?;
    }
    Ok(())
}

/// Returns a certificate in short form.
fn shown(alloc: Global, certificate: &Certificate) -> Result<String, Fail> {
    let mut shown = String::from_str(alloc, "goals")?;
    push_names(&mut shown, &certificate.goals)?;
    for place in 0..certificate.ways.len() {
        push_way(alloc, &mut shown, &certificate.ways.at(place))?;
    }
    Ok(shown)
}

/// Reads bytes and returns the certificate in short form, or the line of the fault.
fn read(alloc: Global, bytes: &[u8]) -> Result<String, Fail> {
    match read_certificate(alloc, bytes) {
        Ok(certificate) => shown(alloc, &certificate),
        Err(CertTextFault::NotJson) => Ok(String::from_str(alloc, "refused 71")?),
        Err(CertTextFault::Shape(key)) => Ok(format!(in alloc; "refused 72 {key}")?),
        Err(CertTextFault::Memory) => Ok(String::from_str(alloc, "want of memory")?),
    }
}

/// Checks what bytes are read as.
fn see(rt: &impl Abort, alloc: Global, bytes: &[u8], want: &str) -> Result<(), Fail> {
    let got = read(alloc, bytes)?;
    let row = str::from_utf8(bytes).unwrap_or("?");
    assert_eq!(rt; got.as_str(), want, "at {row}");
    Ok(())
}

/// Returns the words of a text as names.
fn names(alloc: Global, words: &str) -> Result<PackedNames, AllocError> {
    let mut names = PackedNames::new(alloc);
    for word in words.split_whitespace() {
        names.push(word)?;
    }
    Ok(names)
}

/// Appends the ways of `THREE`.
fn add_three(alloc: Global, ways: &mut Ways) -> Result<(), AllocError> {
    let to_object = names(alloc, "a.o")?;
    ways.push("a.o", "a.c", &to_object, Finish::Source)?;
    let to_program = names(alloc, "p a.o")?;
    ways.push("p", "a.o", &to_program, Finish::Written)?;
    ways.push("p", "a.c", &to_program, Finish::Source)
}

/// Returns the text of a certificate with these goals and ways.
fn written(alloc: Global, goals: PackedNames, ways: Ways) -> Result<String, AllocError> {
    certificate_text(alloc, &Certificate { goals, ways })
}

/// Returns the text of the certificate `THREE`.
fn three_written(alloc: Global) -> Result<String, AllocError> {
    let mut ways = Ways::with_capacity(alloc, 3)?;
    add_three(alloc, &mut ways)?;
    written(alloc, names(alloc, "p")?, ways)
}

#[test]
fn writes_three_ways(rt: HostRuntime) -> Result<(), Fail> {
    let text = three_written(rt.alloc())?;
    assert_eq!(rt; text.as_str(), THREE, "three ways");
    Ok(())
}

#[test]
fn reads_three_ways(rt: HostRuntime) -> Result<(), Fail> {
    see(&rt, rt.alloc(), THREE.as_bytes(), THREE_WAYS)?;
    see(&rt, rt.alloc(), SHUFFLED.as_bytes(), SHUFFLED_WAYS)
}

/// Returns the text of a certificate with these goals and without ways.
fn goals_written(alloc: Global, words: &str) -> Result<String, AllocError> {
    written(alloc, names(alloc, words)?, Ways::new(alloc))
}

#[test]
fn writes_without_ways(rt: HostRuntime) -> Result<(), Fail> {
    let text = goals_written(rt.alloc(), "a\"b c\\d é")?;
    let want = r#"{"format":1,"goals":["a\"b","c\\d","é"],"ways":[]}"#;
    assert_eq!(rt; text.as_str(), want, "no ways");
    see(&rt, rt.alloc(), text.as_bytes(), "goals a\"b c\\d é")
}

/// Checks what the text of a row is read as, between `front` and `rest`.
fn see_row(rt: &impl Abort, alloc: Global, front: &str, row: &str, rest: &str) -> Result<(), Fail> {
    let (text, line) = row.split_once(" => ").unwrap_or((row, ""));
    let text = format!(in alloc; "{front}{text}{rest}")?;
    see(rt, alloc, text.as_bytes(), line)
}

#[test]
fn reads_objects(rt: HostRuntime) -> Result<(), Fail> {
    for row in &rows(rt.alloc(), OBJECTS)? {
        see_row(&rt, rt.alloc(), "", row, "")?;
    }
    Ok(())
}

/// The text before a list of ways.
const BEFORE_WAYS: &str = r#"{"format":1,"goals":[],"ways":"#;

#[test]
fn reads_ways(rt: HostRuntime) -> Result<(), Fail> {
    for row in &rows(rt.alloc(), WAYS)? {
        see_row(&rt, rt.alloc(), BEFORE_WAYS, row, "}")?;
    }
    Ok(())
}

/// The text before and after a nested value, the number of levels around it, and the fault.
const NESTED: [(&str, &str, usize, &str); 8] = [
    ("", "", 0, "refused 72 top"),
    (
        r#"{"x":"#,
        r#","format":1,"goals":[],"ways":[]}"#,
        1,
        "refused 72 unknown",
    ),
    (
        r#"{"format":"#,
        r#","goals":[],"ways":[]}"#,
        1,
        "refused 72 format",
    ),
    (
        r#"{"format":1,"goals":"#,
        r#","ways":[]}"#,
        1,
        "refused 72 goals",
    ),
    (
        r#"{"format":1,"goals":[],"ways":["#,
        "]}",
        2,
        "refused 72 ways",
    ),
    (
        r#"{"format":1,"goals":[],"ways":[{"x":[],"end":"#,
        "}]}",
        3,
        "refused 72 end",
    ),
    (
        r#"{"format":1,"goals":[],"ways":[{"end":"always","file":"f","path":"#,
        "}]}",
        3,
        "refused 72 path",
    ),
    (
        r#"{"format":1,"goals":[],"ways":[{"x":"#,
        r#","end":"always","file":"f","path":[],"recipe":"r"}]}"#,
        3,
        "refused 72 unknown",
    ),
];

/// Returns a text with brackets nested this deep between the texts of `around`.
fn nested(alloc: Global, around: (&str, &str), levels: usize) -> Result<String, AllocError> {
    let mut text = String::from_str(alloc, around.0)?;
    for _ in 0..levels {
        text.push('[')?;
    }
    for _ in 0..levels {
        text.push(']')?;
    }
    text.push_str(around.1)?;
    Ok(text)
}

/// Checks what a text with brackets nested this deep is read as.
fn see_nested(
    rt: &impl Abort,
    alloc: Global,
    around: (&str, &str),
    levels: usize,
    want: &str,
) -> Result<(), Fail> {
    let text = nested(alloc, around, levels)?;
    see(rt, alloc, text.as_bytes(), want)
}

/// Values nest up to 127 levels.
#[test]
fn reads_nested_values(rt: HostRuntime) -> Result<(), Fail> {
    let alloc = rt.alloc();
    for row in &NESTED {
        let (front, rest, levels, want) = *row;
        let around = (front, rest);
        see_nested(&rt, alloc, around, 127 - levels, want)?;
        see_nested(&rt, alloc, around, 128 - levels, "refused 71")?;
    }
    Ok(())
}

/// No proper prefix of a certificate has a JSON value.
#[test]
fn refuses_fronts(rt: HostRuntime) -> Result<(), Fail> {
    let text = THREE.as_bytes();
    for end in 0..text.len() {
        see(&rt, rt.alloc(), &text[..end], "refused 71")?;
    }
    see(
        &rt,
        rt.alloc(),
        b"{\"format\":1,\"goals\":[\"\xff\"]}",
        "refused 71",
    )?;
    see(&rt, rt.alloc(), b"\xef\xbb\xbf{}", "refused 71")
}

/// Checks that a certificate is `THREE`, and that it is written as such if memory suffices.
fn see_three(rt: &impl Abort, alloc: Global, certificate: &Certificate) -> Result<(), Fail> {
    let ways = shown(alloc, certificate)?;
    assert_eq!(rt; ways.as_str(), THREE_WAYS, "as lines");
    if let Ok(text) = certificate_text(alloc, certificate) {
        assert_eq!(rt; text.as_str(), THREE, "as it is written");
    }
    Ok(())
}

/// If an allocation fails, the answer is out of memory or the whole answer.
#[test]
fn wants_memory_or_answers(rt: HostRuntime) -> Result<(), Fail> {
    match read_certificate(rt.alloc(), THREE.as_bytes()) {
        Ok(certificate) => see_three(&rt, rt.alloc(), &certificate),
        Err(fault) => {
            assert!(rt; matches!(fault, CertTextFault::Memory), "want of memory");
            Ok(())
        }
    }
}
