use crate::{Answer, Datum, FieldOf, Fields, Held, Items, Label, Names, PType, PropVal, Str, V3};
use std::alloc::{AllocError, Global};
use std::test::Fail;

fn text(alloc: Global, written: &str) -> Result<Str, AllocError> {
    Ok(Str::of(String::from_str(alloc, written)?))
}

fn open(alloc: Global) -> Result<PropVal, AllocError> {
    Ok(PropVal {
        name: Label(1030),
        ptype: PType::Url,
        text: text(alloc, "a/b")?,
    })
}

// A record with a number at 7, in a list after a text.
fn nested(alloc: Global) -> Result<Datum, AllocError> {
    let mut fields = Fields::new(alloc);
    fields.push(FieldOf {
        label: Label(7),
        value: Datum::Dec(5),
    })?;
    let mut items = Items::new(alloc);
    items.push(Datum::Text(text(alloc, "abc")?))?;
    items.push(Datum::Rec(fields))?;
    Ok(Datum::List(items))
}

const NESTED: &str =
    "List(Items { items: [Text(Str { text: \"abc\" }), Rec(Items { items: [FieldOf { label: Label(7), value: Dec(5) }] })] })";

#[test]
fn copies_and_weighs(rt: HostRuntime) -> Result<(), Fail> {
    let alloc = rt.alloc();
    assert_eq!(rt; text(alloc, "abc")?.copy()?.as_str(), "abc");
    let copy = open(alloc)?.copy()?;
    assert_eq!(rt; (copy.name, copy.ptype), (Label(1030), PType::Url));
    assert_eq!(rt; copy.text.as_str(), "a/b");
    for (value, weight, printed) in [
        (Datum::Nil, 16, "Nil"),
        (
            Datum::Vec3(V3 { x: 1, y: 2, z: 3 }),
            16,
            "Vec3(V3 { x: 1, y: 2, z: 3 })",
        ),
        (
            Datum::Text(text(alloc, "abc")?),
            19,
            "Text(Str { text: \"abc\" })",
        ),
        (nested(alloc)?, 67, NESTED),
    ] {
        let copy = value.copy(alloc)?;
        assert_eq!(rt; copy.weight(), weight, "of {printed}");
        let shown = format!(in alloc; "{copy:?}")?;
        assert_eq!(rt; shown.as_str(), printed);
    }
    Ok(())
}

#[test]
fn shares_an_answer(rt: HostRuntime) -> Result<(), Fail> {
    let held = Held::of(rt.alloc(), Answer::Good(Datum::Dec(5)))?;
    for owner in [held.share()?, held] {
        assert!(rt; matches!(owner.answer(), Answer::Good(Datum::Dec(5))));
    }
    Ok(())
}

#[test]
fn names_texts(rt: HostRuntime) -> Result<(), Fail> {
    let mut names = Names::new(rt.alloc());
    assert_eq!(rt; names.intern("speed")?, Label(1024));
    assert_eq!(rt; names.intern("")?, Label(1025));
    assert_eq!(rt; names.intern("speed")?, Label(1024));
    assert!(rt; names.count() == 2);
    names.cut(1);
    assert_eq!(rt; names.find("speed"), Some(Label(1024)));
    assert_eq!(rt; names.find(""), None);
    assert!(rt; names.text(Label(1025)).is_none());
    Ok(())
}
