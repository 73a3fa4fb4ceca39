// Every row of the dictionary, a line each: tag, least and greatest length, form, who may set the object (S a start,
// C the card, K the session), the templates that may be directly around it, the answers that may bring it, and
// whether a start must.
#![tactic(auto)]

ghost use Rattle.std.specs.Prelude.{◌<◌};

use dictionary::{ROWS, RowAttributes};

fn main(rt: HostRuntime) {
    for row in 0..ROWS {
        line(
            &rt,
            dictionary::row_tag(row),
            dictionary::attributes_of(row),
        );
    }
}

fn line(rt: &impl Print, tag: u32, a: RowAttributes) {
    print::print_tag(rt, tag);
    print::print_text(rt, b",");
    print::print_number(rt, a.least);
    print::print_text(rt, b",");
    print::print_number(rt, a.greatest);
    print::print_text(rt, b",");
    form(rt, a.form);
    print::print_text(rt, b",");
    setters(rt, a.setters);
    print::print_text(rt, b",");
    templates(rt, a.templates);
    print::print_text(rt, b",");
    answers(rt, a.answers);
    print::print_text(rt, b",");
    must(rt, a.must);
    print::print_text(rt, b"\n");
}

fn form(rt: &impl Print, form: u8) {
    match form {
        dictionary::FORM_N => print::print_text(rt, b"n"),
        dictionary::FORM_CN => print::print_text(rt, b"cn"),
        _ => print::print_text(rt, b"b"),
    }
}

fn setters(rt: &impl Print, bits: u8) {
    if bits / dictionary::START % 2 == 1 {
        print::print_text(rt, b"S");
    }
    if bits / dictionary::CARD % 2 == 1 {
        print::print_text(rt, b"C");
    }
    if bits / dictionary::SESSION % 2 == 1 {
        print::print_text(rt, b"K");
    }
}

fn templates(rt: &impl Print, bits: u8) {
    one_of(rt, bits, dictionary::IN_70, b"70");
    one_of(rt, bits, dictionary::IN_77, b"77");
    one_of(rt, bits, dictionary::IN_A5, b"A5");
    one_of(rt, bits, dictionary::IN_BF0C, b"BF0C");
    one_of(rt, bits, dictionary::IN_6F, b"6F");
    none_of(rt, bits);
}

fn answers(rt: &impl Print, bits: u8) {
    if bits
        == dictionary::GPO
            + dictionary::CARD_RECORD
            + dictionary::CRYPTOGRAM
            + dictionary::CHECKSUM
    {
        print::print_text(rt, b"any");
    } else {
        some_answers(rt, bits);
    }
}

fn some_answers(rt: &impl Print, bits: u8) {
    one_of(rt, bits, dictionary::GPO, b"options");
    one_of(rt, bits, dictionary::CARD_RECORD, b"record");
    one_of(rt, bits, dictionary::CRYPTOGRAM, b"cryptogram");
    one_of(rt, bits, dictionary::CHECKSUM, b"checksum");
    none_of(rt, bits);
}

fn must(rt: &impl Print, must: u8) {
    if must == 1 {
        print::print_text(rt, b"must");
    } else {
        print::print_text(rt, b"-");
    }
}

// The name of a bit that is set, after a plus if one of the bits below it is.
fn one_of(rt: &impl Print, bits: u8, bit: u8, name: &[u8])
    requires { 0 < bit }
{
    if bits / bit % 2 == 1 {
        if bits % bit != 0 {
            print::print_text(rt, b"+");
        }
        print::print_text(rt, name);
    }
}

fn none_of(rt: &impl Print, bits: u8) {
    if bits == 0 {
        print::print_text(rt, b"-");
    }
}
