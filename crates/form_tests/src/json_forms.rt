//! JSON values, texts and numbers.

use json_form::{
    Bad, Fault, Json, Shared, Text, Whole, given_part, joined_field, needed_object, needed_text,
    needed_whole, no_items_field, object_field, object_field_or_empty, optional_boolean,
    optional_text, optional_whole, part, text_field, text_field_or, whole_field_or,
};
use std::test::Fail;

fn refused(rt: &HostRuntime, text: &str) -> Option<Bad> {
    match Json::read(rt.alloc(), text) {
        Ok(_) => None,
        Err(bad) => Some(bad),
    }
}

fn written(rt: &HostRuntime, text: &str) -> Result<String, Fail> {
    Ok(Json::read(rt.alloc(), text)?.write(rt.alloc())?)
}

#[test]
fn reads_whole_numbers_alone(rt: HostRuntime) -> Result<(), Fail> {
    let not_whole = Some(Bad::Fault(Fault::NotWhole));
    assert_eq!(rt; refused(&rt, "[1.5]"), not_whole);
    assert_eq!(rt; refused(&rt, "{\"a\":[1e2]}"), not_whole);
    assert_eq!(rt; refused(&rt, "-0"), not_whole);
    assert_eq!(rt; refused(&rt, "18446744073709551616"), not_whole);
    assert_eq!(rt; refused(&rt, "-9223372036854775809"), not_whole);
    assert_eq!(rt; refused(&rt, "1e999"), Some(Bad::Fault(Fault::NotJson)));
    assert_eq!(rt; refused(&rt, "[1"), Some(Bad::Fault(Fault::NotJson)));
    assert_eq!(rt;
        written(&rt, " [ 18446744073709551615, -9223372036854775808, 0 ] ")?.as_str(),
        "[18446744073709551615,-9223372036854775808,0]"
    );
    Ok(())
}

/// Of equal keys the last stays, and the numbers under the others count too.
#[test]
fn judges_numbers_under_equal_keys(rt: HostRuntime) -> Result<(), Fail> {
    let not_whole = Some(Bad::Fault(Fault::NotWhole));
    let texts = [
        "{\"n\":1.5,\"n\":1}",
        "{\"n\":1,\"n\":1e0}",
        "{\"n\":-0,\"n\":0}",
        "{\"n\":18446744073709551616,\"n\":1}",
        "{\"n\":-9223372036854775809,\"n\":1}",
        "{\"o\":{\"n\":1.5,\"n\":1}}",
        "[{\"o\":{\"n\":[0.0]},\"o\":{}}]",
    ];
    for text in texts {
        assert_eq!(rt; refused(&rt, text), not_whole);
    }
    let not_json = "{\"n\":1.5,\"n\":1";
    assert_eq!(rt; refused(&rt, not_json), Some(Bad::Fault(Fault::NotJson)));
    let text_and_key = "{\"n\":\"1.5\",\"n\":2,\"1.5\":3}";
    assert_eq!(rt; written(&rt, text_and_key)?.as_str(), "{\"1.5\":3,\"n\":2}");
    Ok(())
}

#[test]
fn reads_bytes(rt: HostRuntime) -> Result<(), Fail> {
    let read = Json::read_bytes(rt.alloc(), b"{\"b\":1,\"a\":2,\"b\":3}")?;
    assert_eq!(rt; read.write(rt.alloc())?.as_str(), "{\"a\":2,\"b\":3}");
    let bad = match Json::read_bytes(rt.alloc(), &[34, 255, 34]) {
        Ok(_) => None,
        Err(bad) => Some(bad),
    };
    assert_eq!(rt; bad, Some(Bad::Fault(Fault::NotJson)));
    Ok(())
}

#[test]
fn finds_fields(rt: HostRuntime) -> Result<(), Fail> {
    let alloc = rt.alloc();
    let json = Json::read(
        alloc,
        "{\"t\":\"x\",\"n\":null,\"o\":{\"k\":-5},\"e\":[],\"l\":[\"a\\n\",\"b\"]}",
    )?;
    let value = json.value();
    assert_eq!(rt; text_field(value, "t")?, "x");
    assert_eq!(rt; text_field(value, "u"), Err(Fault::Missing));
    assert_eq!(rt; text_field(value, "n"), Err(Fault::WrongKind));
    assert_eq!(rt; text_field_or(value, "u", "d")?, "d");
    assert_eq!(rt; whole_field_or(value, "u", Whole::from_u64(7))?.number(), 7);
    assert_eq!(rt;
        needed_whole(part(object_field(value, "o")?, "k"))?.number(),
        -5
    );
    assert_eq!(rt;
        object_field_or_empty(alloc, value, "u")?
            .write(alloc)?
            .as_str(),
        "{}"
    );
    assert_eq!(rt; no_items_field(value, "e"), Ok(()));
    assert_eq!(rt; no_items_field(value, "l"), Err(Fault::WrongKind));
    assert_eq!(rt; joined_field(alloc, value, "l")?.as_str(), "a\nb");
    Ok(())
}

#[test]
fn takes_null_as_missing(rt: HostRuntime) -> Result<(), Fail> {
    let json = Json::read(rt.alloc(), "{\"t\":\"x\",\"n\":null,\"o\":{}}")?;
    let value = json.value();
    assert_eq!(rt; needed_text(given_part(value, "t"))?, "x");
    assert_eq!(rt; needed_text(given_part(value, "n")), Err(Fault::Missing));
    assert_eq!(rt; optional_text(given_part(value, "n"), "d")?, "d");
    assert_eq!(rt; optional_text(part(value, "n"), "d"), Err(Fault::WrongKind));
    assert_eq!(rt; optional_boolean(given_part(value, "n"), true)?, true);
    assert_eq!(rt;
        optional_whole(given_part(value, "n"), Whole::ZERO)?.number(),
        0
    );
    assert!(rt; needed_object(given_part(value, "o")).is_ok());
    Ok(())
}

#[test]
fn keeps_texts(rt: HostRuntime) -> Result<(), Fail> {
    let text = Text::from_str(rt.alloc(), "abc")?;
    let again = Text::from_string(text.copy()?.into_string());
    assert_eq!(rt; again.as_str(), "abc");
    let json = Json::of_whole(Json::keep(Json::empty(rt.alloc()).value())?.into_value());
    assert_eq!(rt; json.write(rt.alloc())?.as_str(), "{}");
    Ok(())
}

#[test]
fn shares_a_value(rt: HostRuntime) -> Result<(), Fail> {
    let shared = Shared::share(rt.alloc(), Text::from_str(rt.alloc(), "abc")?)?;
    let other = shared.another()?;
    drop(shared);
    assert_eq!(rt; other.value().as_str(), "abc");
    Ok(())
}
