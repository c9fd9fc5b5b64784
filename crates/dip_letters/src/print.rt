//! Letters as bytes.
ghost use Rattle.std.specs.Prelude.{◌≡◌, ◌++◌, ◌∷◌, [], IfOk, OnOk, codes, map, string_bytes};
ghost use Rattle.std.specs.Fmt.{decimal};
ghost use Rattle.dip_letters.specs.Letters.{body_lines, command_line, intent_words, master_body, master_line, notice_body, notice_line, player_body, player_line, press_name, seat_line, seat_words, spelling, text_line, words_of, yes_or_no};
ghost use Rattle.dip_letters_words.specs.Lines.{text_of};
ghost use Rattle.dip_letters.specs.Views.{lines_in, master_request, names_in, note, notice_request, player_request, request, seat_note, seats_in, texts_in};

use crate::{
    Command, Letter, Lines, MasterCommand, Names, Notice, Opening, PlayerCommand, Press, Seat,
    Seats, Texts,
};
use std::alloc::{AllocError, Global};

/// The bytes of a letter by its parts, from `LETTER` to the LF of `END`.
pub fn print_letter(alloc: Global, letter: &Letter<'_>) -> Result<Vec<u8>, AllocError>
    ensures { IfOk result (λ v. v.items ≡ spelling (note letter.now)) }
{
    let mut text = String::new(alloc);
    text.push_str("LETTER\n")?;
    push_line(&mut text, "GAME ", letter.game)?;
    push_line(&mut text, "FROM ", letter.sender)?;
    push_line(&mut text, "SECRET ", letter.secret)?;
    let number = letter.number.to_string(alloc)?;
    push_line(&mut text, "NUMBER ", number.as_str())?;
    push_command(alloc, &mut text, letter.command)?;
    text.push_str("END\n")?;
    Ok(text.into_bytes())
}

/// Appends a name, a value and LF.
fn push_line(text: &mut String, name: &str, value: &str) -> Result<(), AllocError>
    ensures { OnOk result
        (string_bytes text.new ≡ string_bytes text.old ++ ((name.now ++ value.now) ++ 10 ∷ [])) }
{
    text.push_str(name)?;
    text.push_str(value)?;
    text.push_str("\n")
}

/// Appends a name, a number and LF.
fn push_number(alloc: Global, text: &mut String, name: &str, number: u64) -> Result<(), AllocError>
    ensures { OnOk result
        (string_bytes text.new ≡ string_bytes text.old ++
        ((name.now ++ decimal number) ++ 10 ∷ [])) }
{
    let number = number.to_string(alloc)?;
    push_line(text, name, number.as_str())
}

/// Appends a command's line and its body.
fn push_command(alloc: Global, text: &mut String, command: Command<'_>) -> Result<(), AllocError>
    ensures { OnOk result
        (string_bytes text.new ≡ string_bytes text.old ++
        (command_line (request command.entry) ++ 10 ∷ text_of
        (body_lines (request command.entry)))) }
{
    match command {
        Command::Player(command) => push_player(alloc, text, command),
        Command::Master(command) => push_master(alloc, text, command),
    }
}

/// Appends the line of a power's command and its body.
fn push_player(
    alloc: Global,
    text: &mut String,
    command: PlayerCommand<'_>,
) -> Result<(), AllocError>
    ensures { OnOk result
        (string_bytes text.new ≡ string_bytes text.old ++
        (player_line (player_request command.entry) ++ 10 ∷ text_of
        (player_body (player_request command.entry)))) }
{
    match command {
        PlayerCommand::Orders(lines) => {
            text.push_str("ORDERS\n")?;
            push_lines(text, lines)
        }
        PlayerCommand::Withdraw => text.push_str("WITHDRAW\n"),
        PlayerCommand::Press(press) => push_press(text, press),
        PlayerCommand::Vote(draw) => push_line(text, "VOTE ", yes_or_no(draw)),
        PlayerCommand::VoteFor(powers) => {
            text.push_str("VOTE FOR")?;
            push_names(text, powers)?;
            text.push_str("\n")
        }
        PlayerCommand::Show => text.push_str("SHOW\n"),
        PlayerCommand::Inbox(first) => push_number(alloc, text, "INBOX ", u64::from(first)),
    }
}

/// Appends the line of press and its text.
fn push_press(text: &mut String, press: Press<'_>) -> Result<(), AllocError>
    ensures { OnOk result
        (string_bytes text.new ≡ string_bytes text.old ++
        ((press_name press.entry.grey ++ words_of (names_in press.entry.addressees)) ++
        10 ∷ text_of (map text_line (texts_in press.entry.text)))) }
{
    text.push_str(press_name(press.grey))?;
    push_names(text, press.addressees)?;
    text.push_str("\n")?;
    push_texts(text, press.text)
}

/// What the addressees of press follow: `PRESS` or `GREY`.
fn press_name(grey: bool) -> &'static str
    ensures { result.now ≡ press_name grey }
{
    if grey {
        "PRESS GREY TO"
    } else {
        "PRESS WHITE TO"
    }
}

/// Appends the line of a command of the master and its body.
fn push_master(
    alloc: Global,
    text: &mut String,
    command: MasterCommand<'_>,
) -> Result<(), AllocError>
    ensures { OnOk result
        (string_bytes text.new ≡ string_bytes text.old ++
        (master_line (master_request command.entry) ++ 10 ∷ text_of
        (master_body (master_request command.entry)))) }
{
    match command {
        MasterCommand::Create(opening) => {
            let line = opening_line(alloc, opening)?;
            push_line(text, "CREATE ", line.as_str())?;
            push_seats(text, opening.seats)
        }
        MasterCommand::Tick(tick) => push_number(alloc, text, "TICK ", tick),
        MasterCommand::Replace(seat) => push_seat(text, "REPLACE ", seat),
        MasterCommand::Notify(notice) => push_notice(alloc, text, notice),
    }
}

/// Appends the line of what a paper makes known and its body.
fn push_notice(alloc: Global, text: &mut String, notice: Notice<'_>) -> Result<(), AllocError>
    ensures { OnOk result
        (string_bytes text.new ≡ string_bytes text.old ++
        (notice_line (notice_request notice.entry) ++ 10 ∷ text_of
        (notice_body (notice_request notice.entry)))) }
{
    match notice {
        Notice::Pause => text.push_str("PAUSE\n"),
        Notice::Resume => text.push_str("RESUME\n"),
        Notice::Period(period) => push_number(alloc, text, "PERIOD ", u64::from(period)),
        Notice::Announce(lines) => {
            text.push_str("ANNOUNCE\n")?;
            push_texts(text, lines)
        }
        Notice::Close => text.push_str("CLOSE\n"),
    }
}

/// What follows `CREATE` in its line.
fn opening_line(alloc: Global, opening: Opening<'_>) -> Result<String, AllocError>
    ensures { IfOk result
        (λ s. codes "CREATE " ++ string_bytes s ≡ master_line
        (master_request (MasterCommand.Create opening.entry))) }
{
    let grey = yes_or_no(opening.grey);
    let intent = intent_words(opening.intent);
    format!(in alloc;
        "DUE {} PERIOD {} GREY {grey}{intent}",
        opening.due, opening.period
    )
}

/// What a line says of INTENT.
fn intent_words(intent: Option<bool>) -> &'static str
    ensures { result.now ≡ intent_words intent }
{
    match intent {
        Some(true) => " INTENT YES",
        Some(false) => " INTENT NO",
        None => "",
    }
}

/// How an answer is written: `YES` or `NO`.
pub fn yes_or_no(answer: bool) -> &'static str
    ensures { result.now ≡ yes_or_no answer }
{
    if answer { "YES" } else { "NO" }
}

/// Appends order lines as they were written, each ended by LF.
fn push_lines(text: &mut String, lines: Lines<'_>) -> Result<(), AllocError>
    ensures { OnOk result
        (string_bytes text.new ≡ string_bytes text.old ++ text_of (lines_in lines.entry)) }
{
    for line in lines {
        push_line(text, "", line)?;
    }
    Ok(())
}

/// Appends a line `SEAT` for each seat.
fn push_seats(text: &mut String, seats: Seats<'_>) -> Result<(), AllocError>
    ensures { OnOk result
        (string_bytes text.new ≡ string_bytes text.old ++ text_of
        (map seat_line (seats_in seats.entry))) }
{
    for seat in seats {
        push_seat(text, "SEAT ", seat)?;
    }
    Ok(())
}

/// Appends a name, a power, its secret and LF.
fn push_seat(text: &mut String, name: &str, seat: Seat<'_>) -> Result<(), AllocError>
    ensures { OnOk result
        (string_bytes text.new ≡ string_bytes text.old ++
        ((name.now ++ seat_words (seat_note seat.entry)) ++ 10 ∷ [])) }
{
    text.push_str(name)?;
    text.push_str(seat.power)?;
    push_line(text, " ", seat.secret)
}

/// Appends each line of a text after `> `.
fn push_texts(text: &mut String, lines: Texts<'_>) -> Result<(), AllocError>
    ensures { OnOk result
        (string_bytes text.new ≡ string_bytes text.old ++ text_of
        (map text_line (texts_in lines.entry))) }
{
    for line in lines {
        push_line(text, "> ", line)?;
    }
    Ok(())
}

/// Appends names, a space before each.
fn push_names(text: &mut String, names: Names<'_>) -> Result<(), AllocError>
    ensures { OnOk result
        (string_bytes text.new ≡ string_bytes text.old ++ words_of (names_in names.entry)) }
{
    for name in names {
        text.push_str(" ")?;
        text.push_str(name)?;
    }
    Ok(())
}
