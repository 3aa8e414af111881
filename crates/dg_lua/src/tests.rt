//! Scripts, and what they declare.
use crate::declarations;
use std::alloc::{AllocError, Global};
use std::test::Fail;

// Scripts, and what they declare: every form of a value with and without blanks, ids in quotes of either sort, lines
// that declare nothing, and repeated ids.
const SCRIPTS: [(&str, &str); 13] = [
    (
        "go.property(\"a\", vmath.vector3(1, 2, 3))\ngo.property(\"a\", 4)",
        "a: Vector3 1, 2, 3;",
    ),
    (
        "\t go.property( 'a b' ,\t-.5e3 ) -- why\ngo.property(\"\",true)x\ngo.property(\"f\",false)\r\n  go.property(\"é\", 1)",
        "a b: Number -.5e3;: Boolean true;f: Boolean false;é: Number 1;",
    ),
    (
        "go.property(\"h\", hash(\"x y\"))\ngo.property(\"i\", hash( '' ))\ngo.property(\"u\", msg.url())\ngo.property(\"v\", msg.url( \"main:/a#b\" ))",
        "h: Hash x y;i: Hash ;u: Url ;v: Url main:/a#b;",
    ),
    (
        "go.property(\"r\", resource.material(\"/a.material\"))\ngo.property(\"s\", resource.texture_A())",
        "r: Hash /a.material;s: Hash ;",
    ),
    (
        "go.property(\"v\", vmath.vector3())\ngo.property(\"w\", vmath.vector4( ))\ngo.property(\"q\", vmath.quat())",
        "v: Vector3 0, 0, 0;w: Vector4 0, 0, 0, 0;q: Quat 0, 0, 0, 1;",
    ),
    (
        "go.property(\"w\", vmath.vector4(1 ,-2,\t+3.0, 4e1 ))\ngo.property(\"q\", vmath.quat(0,0,0,1))",
        "w: Vector4 1, -2, +3.0, 4e1;q: Quat 0, 0, 0, 1;",
    ),
    (
        "go.property(\"a\" 1)\ngo.property(\"a\", 1\ngo.property (\"a\", 1)\ngo.property(a, 1)\ngo.property(\"a\\\\\", 1)\nx go.property(\"a\", 1)\n--go.property(\"a\", 1)",
        "",
    ),
    (
        "go.property(\"a\", 1-)\ngo.property(\"a\", 1e400)\ngo.property(\"a\", 9223372037)\ngo.property(\"a\", .)\ngo.property(\"a\", e1)\ngo.property(\"a\", 1 2)\ngo.property(\"a\", )",
        "",
    ),
    (
        "go.property(\"a\", hash (\"x\"))\ngo.property(\"a\", hash())\ngo.property(\"a\", hash(\"x'))\ngo.property(\"a\", hash(\"x\" \"y\"))\ngo.property(\"a\", trueish)\ngo.property(\"a\", nil)\ngo.property(\"a\", {})",
        "",
    ),
    (
        "go.property(\"a\", vmath.vector3)\ngo.property(\"a\", vmath.vector3(1, 2))\ngo.property(\"a\", vmath.vector3(1, 2, 3, 4))\ngo.property(\"a\", vmath.vector3(1, 2, 3,))\ngo.property(\"a\", vmath.vector4(1, 2, 3))\ngo.property(\"a\", vmath.quat(1, 2, 3, x))\ngo.property(\"a\", vmath.vector3(,))",
        "",
    ),
    (
        "go.property(\"a\", resource.())\ngo.property(\"a\", resource.a1())\ngo.property(\"a\", resource.a ())\ngo.property(\"a\", msg.url(x))\ngo.property(\"a\", msg.url(\"x\", \"y\"))\ngo.property(\"a\"\n, 1)",
        "",
    ),
    (
        "go.property(\"a\", 1)\ngo.property(\"b\", 2)\ngo.property(\"a\", 3)\ngo.property(\"c\", bad)\ngo.property(\"c\", 4)\ngo.property(\"b\", true)",
        "a: Number 1;b: Number 2;c: Number 4;",
    ),
    ("", ""),
];

fn declared(alloc: Global, text: &str) -> Result<String, AllocError> {
    let mut told = String::new(alloc);
    for one in &declarations(alloc, text)? {
        let (id, ptype, text) = (one.id.as_str(), one.ptype, one.text.as_str());
        let line = format!(in alloc; "{id}: {ptype:?} {text};")?;
        told.push_str(line.as_str())?;
    }
    Ok(told)
}

#[test]
fn reads_declarations(rt: HostRuntime) -> Result<(), Fail> {
    for (script, answer) in SCRIPTS {
        let given = declared(rt.alloc(), script)?;
        assert_eq!(rt; given.as_str(), answer, "of {script}");
    }
    Ok(())
}
