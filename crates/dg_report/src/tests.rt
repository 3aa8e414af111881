//! What is printed of values and faults.
use crate::answer_text;
use dg_base::{
    Answer, Datum, Endpoint, Fault, FaultCode, Faults, FieldOf, Fields, Items, Label, Names,
    NodeId, PType, PropVal, Str, V3, V4,
};
use std::alloc::{AllocError, Global};
use std::test::Fail;

/// The types of open properties, and how one is printed.
static TYPES: [(PType, &str); 7] = [
    (PType::Number, "speed number \"a\\n\""),
    (PType::Hash, "speed hash \"a\\n\""),
    (PType::Url, "speed url \"a\\n\""),
    (PType::Vector3, "speed vector3 \"a\\n\""),
    (PType::Vector4, "speed vector4 \"a\\n\""),
    (PType::Quat, "speed quat \"a\\n\""),
    (PType::Boolean, "speed boolean \"a\\n\""),
];

/// The node, the label and the code of each fault.
static FAULTS: [(u32, u64, FaultCode); 8] = [
    (1, 1, FaultCode::NoEndpoint),
    (20, 31, FaultCode::Defective),
    (3, 1024, FaultCode::Range),
    (4, 1025, FaultCode::NoResource),
    (4294967295, 1026, FaultCode::DuplicateId),
    (5, 0, FaultCode::PropType),
    (6, 32, FaultCode::BadName),
    (7, 1023, FaultCode::TooLong),
];

/// Two open names.
fn names(alloc: Global) -> Result<Names, AllocError> {
    let mut names = Names::new(alloc);
    names.intern("speed")?;
    names.intern("a b")?;
    Ok(names)
}

fn shows(alloc: Global, answer: &Answer, expected: &str) -> Result<bool, AllocError> {
    let names = names(alloc)?;
    Ok(answer_text(alloc, answer, &names)?.as_slice() == expected.as_bytes())
}

fn shows_value(alloc: Global, value: Datum, expected: &str) -> Result<bool, AllocError> {
    shows(alloc, &Answer::Good(value), expected)
}

fn str_of(alloc: Global, text: &str) -> Result<Str, AllocError> {
    Ok(Str::of(String::from_str(alloc, text)?))
}

fn list_of(alloc: Global, values: [Datum; 3]) -> Result<Datum, AllocError> {
    let mut items = Items::new(alloc);
    for value in values {
        if items.push(value).is_err() {
            return Err(AllocError);
        }
    }
    Ok(Datum::List(items))
}

/// A record with these values at the labels id, 1,025, 1,026 and 999.
fn record_of(alloc: Global, values: [Datum; 4]) -> Result<Datum, AllocError> {
    let labels = [11, 1025, 1026, 999];
    let mut fields = Fields::new(alloc);
    for (place, value) in values.into_iter().enumerate() {
        let label = Label(labels[place]);
        if fields.push(FieldOf { label, value }).is_err() {
            return Err(AllocError);
        }
    }
    Ok(Datum::Rec(fields))
}

fn shows_plain_values(alloc: Global) -> Result<bool, AllocError> {
    let v = V3 {
        x: 0,
        y: 500_000_000,
        z: -1,
    };
    let q = V4 {
        x: i64::MIN,
        y: i64::MAX,
        z: 0,
        w: 1_000_000_000,
    };
    Ok(
        shows_value(alloc, Datum::Nil, "nil")?
            && shows_value(alloc, Datum::Flag(true), "true")?
            && shows_value(alloc, Datum::Flag(false), "false")?
            && shows_value(alloc, Datum::Dec(-1_500_000_000), "-1.5")?
            && shows_value(alloc, Datum::Text(str_of(alloc, "nil")?), "\"nil\"")?
            && shows_value(alloc, Datum::Vec3(v), "[0, 0.5, -0.000000001]")?
            && shows_value(
                alloc,
                Datum::Quat(q),
                "[-9223372036.854775808, 9223372036.854775807, 0, 1]",
            )?,
    )
}

fn shows_properties(alloc: Global) -> Result<bool, AllocError> {
    for case in &TYPES {
        let value = Datum::Prop(PropVal {
            name: Label(1024),
            ptype: case.0,
            text: str_of(alloc, "a\n")?,
        });
        if !shows_value(alloc, value, case.1)? {
            return Ok(false);
        }
    }
    Ok(true)
}

fn shows_nested_values(alloc: Global) -> Result<bool, AllocError> {
    let empty = Datum::List(Items::new(alloc));
    let list = list_of(alloc, [Datum::Nil, empty, Datum::Flag(true)])?;
    let none = Datum::Rec(Fields::new(alloc));
    let record = record_of(alloc, [list, none, Datum::Nil, Datum::Dec(0)])?;
    let all = list_of(alloc, [record, Datum::Nil, Datum::Nil])?;
    shows_value(
        alloc,
        all,
        "({id: (nil, (), true), a b: {}, 1026: nil, 999: 0}, nil, nil)",
    )
}

fn shows_faults(alloc: Global) -> Result<bool, AllocError> {
    let mut faults = Vec::new(alloc);
    for case in &FAULTS {
        let node = NodeId(case.0);
        let label = Label(case.1);
        faults.push(Fault {
            at: Endpoint { node, label },
            code: case.2,
        })?;
    }
    shows(
        alloc,
        &Answer::Bad(Faults::of(faults)),
        "fault 1.value NoEndpoint, 20.child Defective, 3:speed Range, 4:a b NoResource, 4294967295:1026 DuplicateId, 5.0 PropType, 6.32 BadName, 7.1023 TooLong",
    )
}

#[test]
fn prints_every_value(rt: HostRuntime) -> Result<(), Fail> {
    assert!(rt; shows_plain_values(rt.alloc())?);
    assert!(rt; shows_properties(rt.alloc())?);
    assert!(rt; shows_nested_values(rt.alloc())?);
    Ok(())
}

#[test]
fn prints_every_answer(rt: HostRuntime) -> Result<(), Fail> {
    assert!(rt; shows(rt.alloc(), &Answer::Cycle, "cycle")?);
    assert!(rt; shows_faults(rt.alloc())?);
    Ok(())
}
