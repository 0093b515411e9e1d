use crate::{push_data, push_grouped, push_name, push_open, push_text};
use std::alloc::AllocError;

#[test]
fn texts(rt: HostRuntime) -> Result<(), AllocError> {
    let alloc = rt.alloc();
    let cases = [
        ("0", "0"),
        ("999", "999"),
        ("-1000", "−1,000"),
        ("1234567.125", "1,234,567.125"),
        ("-0.50", "−0.50"),
    ];
    for (number, wanted) in cases {
        let mut text = String::new(alloc);
        push_grouped(&mut text, number)?;
        assert_eq!(rt; text.as_str(), wanted);
    }
    let mut text = String::new(alloc);
    push_open(&mut text, "td", &[("class", "n"), ("title", "a\"<b")])?;
    push_name(&mut text, "<é & \"ש\">")?;
    push_data(&mut text, "-1234.5")?;
    push_text(&mut text, "a\rb")?;
    assert_eq!(rt;
        text.as_str(),
        "<td class=\"n\" title=\"a&quot;&lt;b\"><bdi>&lt;é &amp; &quot;ש&quot;&gt;</bdi><data value=\"-1234.5\">−1,234.5</data>a&#13;b"
    );
    Ok(())
}
