// What a line asks for.

pub(crate) enum Word {
    Nothing,
    Fresh,
    Open,
    Revise,
    Withdraw,
    Post,
    Finish,
    Bill,
    Pay,
    Support,
    OpenCurves,
    ReviseCurves,
    // Four curves whose points are all alike.
    OpenRows,
    Close,
    // With many paths.
    CloseSpan,
    OpenSides,
    ReviseSides,
    PostSides,
    // What no message does.
    Write,
    Endow,
    Make,
    Rebuild,
    Look,
    Sums,
}

impl Word {
    // By the third letter, and after `zone` by the next word's first: what is printed for a line of any other word may not change.
    pub(crate) fn of(line: &[u8]) -> Word {
        match line {
            [b'z', _, _, _, _, b'o', ..] => Word::OpenSides,
            [b'z', _, _, _, _, b'r', ..] => Word::ReviseSides,
            [b'z', ..] => Word::PostSides,
            [_, _, letter, ..] => Word::of_letter(*letter),
            _ => Word::Nothing,
        }
    }

    fn of_letter(letter: u8) -> Word {
        match letter {
            b' ' => Word::Nothing,
            b'f' => Word::Fresh,
            b'e' => Word::Open,
            b'v' => Word::Revise,
            b't' => Word::Withdraw,
            b's' => Word::Post,
            b'n' => Word::Finish,
            b'l' => Word::Bill,
            b'y' => Word::Pay,
            b'r' => Word::OpenCurves,
            b'c' => Word::ReviseCurves,
            b'w' => Word::OpenRows,
            b'u' => Word::Close,
            b'a' => Word::CloseSpan,
            b'i' => Word::Write,
            b'd' => Word::Endow,
            b'k' => Word::Make,
            b'b' => Word::Rebuild,
            b'o' => Word::Look,
            b'm' => Word::Sums,
            _ => Word::Support,
        }
    }
}
