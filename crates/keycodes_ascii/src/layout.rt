// What each key writes, to be held against a keyboard; docs/USING.md has its guide.

/// The keycodes that events have: 00 to 5D.
pub const KEYCODES: usize = 94;

/// A row for each keycode, in order: its characters without Shift and Caps Lock, with Shift, with
/// Caps Lock, and with both; 0 where there is none, so that a key fits a line and the page can be
/// held against a keyboard. Beside them stand the keycode, the key's name, and the numbers that the
/// characters have in ASCII, hexadecimal.
pub static CHARACTERS: [[u8; 4]; KEYCODES] = [
    [0x00, 0x00, 0x00, 0x00], // 00 OverflowError  00 00 00 00
    [0x1B, 0x1B, 0x1B, 0x1B], // 01 Escape         1B 1B 1B 1B
    [b'1', b'!', b'1', b'!'], // 02 Num1           31 21 31 21
    [b'2', b'@', b'2', b'@'], // 03 Num2           32 40 32 40
    [b'3', b'#', b'3', b'#'], // 04 Num3           33 23 33 23
    [b'4', b'$', b'4', b'$'], // 05 Num4           34 24 34 24
    [b'5', b'%', b'5', b'%'], // 06 Num5           35 25 35 25
    [b'6', b'^', b'6', b'^'], // 07 Num6           36 5E 36 5E
    [b'7', b'&', b'7', b'&'], // 08 Num7           37 26 37 26
    [b'8', b'*', b'8', b'*'], // 09 Num8           38 2A 38 2A
    [b'9', b'(', b'9', b'('], // 0A Num9           39 28 39 28
    [b'0', b')', b'0', b')'], // 0B Num0           30 29 30 29
    [b'-', b'_', b'-', b'_'], // 0C Minus          2D 5F 2D 5F
    [b'=', b'+', b'=', b'+'], // 0D Equals         3D 2B 3D 2B
    [0x08, 0x08, 0x08, 0x08], // 0E Backspace      08 08 08 08
    [0x09, 0x09, 0x09, 0x09], // 0F Tab            09 09 09 09
    [b'q', b'Q', b'Q', b'q'], // 10 Q              71 51 51 71
    [b'w', b'W', b'W', b'w'], // 11 W              77 57 57 77
    [b'e', b'E', b'E', b'e'], // 12 E              65 45 45 65
    [b'r', b'R', b'R', b'r'], // 13 R              72 52 52 72
    [b't', b'T', b'T', b't'], // 14 T              74 54 54 74
    [b'y', b'Y', b'Y', b'y'], // 15 Y              79 59 59 79
    [b'u', b'U', b'U', b'u'], // 16 U              75 55 55 75
    [b'i', b'I', b'I', b'i'], // 17 I              69 49 49 69
    [b'o', b'O', b'O', b'o'], // 18 O              6F 4F 4F 6F
    [b'p', b'P', b'P', b'p'], // 19 P              70 50 50 70
    [b'[', b'{', b'[', b'{'], // 1A LeftBracket    5B 7B 5B 7B
    [b']', b'}', b']', b'}'], // 1B RightBracket   5D 7D 5D 7D
    [0x0A, 0x0A, 0x0A, 0x0A], // 1C Enter          0A 0A 0A 0A
    [0x00, 0x00, 0x00, 0x00], // 1D Control        00 00 00 00
    [b'a', b'A', b'A', b'a'], // 1E A              61 41 41 61
    [b's', b'S', b'S', b's'], // 1F S              73 53 53 73
    [b'd', b'D', b'D', b'd'], // 20 D              64 44 44 64
    [b'f', b'F', b'F', b'f'], // 21 F              66 46 46 66
    [b'g', b'G', b'G', b'g'], // 22 G              67 47 47 67
    [b'h', b'H', b'H', b'h'], // 23 H              68 48 48 68
    [b'j', b'J', b'J', b'j'], // 24 J              6A 4A 4A 6A
    [b'k', b'K', b'K', b'k'], // 25 K              6B 4B 4B 6B
    [b'l', b'L', b'L', b'l'], // 26 L              6C 4C 4C 6C
    [b';', b':', b';', b':'], // 27 Semicolon      3B 3A 3B 3A
    [b'\'', b'"', b'\'', b'"'], // 28 Quote        27 22 27 22
    [b'`', b'~', b'`', b'~'], // 29 Backtick       60 7E 60 7E
    [0x00, 0x00, 0x00, 0x00], // 2A LeftShift      00 00 00 00
    [b'\\', b'|', b'\\', b'|'], // 2B Backslash    5C 7C 5C 7C
    [b'z', b'Z', b'Z', b'z'], // 2C Z              7A 5A 5A 7A
    [b'x', b'X', b'X', b'x'], // 2D X              78 58 58 78
    [b'c', b'C', b'C', b'c'], // 2E C              63 43 43 63
    [b'v', b'V', b'V', b'v'], // 2F V              76 56 56 76
    [b'b', b'B', b'B', b'b'], // 30 B              62 42 42 62
    [b'n', b'N', b'N', b'n'], // 31 N              6E 4E 4E 6E
    [b'm', b'M', b'M', b'm'], // 32 M              6D 4D 4D 6D
    [b',', b'<', b',', b'<'], // 33 Comma          2C 3C 2C 3C
    [b'.', b'>', b'.', b'>'], // 34 Period         2E 3E 2E 3E
    [b'/', b'?', b'/', b'?'], // 35 Slash          2F 3F 2F 3F
    [0x00, 0x00, 0x00, 0x00], // 36 RightShift     00 00 00 00
    [b'*', b'*', b'*', b'*'], // 37 PadMultiply    2A 2A 2A 2A
    [0x00, 0x00, 0x00, 0x00], // 38 Alt            00 00 00 00
    [b' ', b' ', b' ', b' '], // 39 Space          20 20 20 20
    [0x00, 0x00, 0x00, 0x00], // 3A CapsLock       00 00 00 00
    [0x00, 0x00, 0x00, 0x00], // 3B F1             00 00 00 00
    [0x00, 0x00, 0x00, 0x00], // 3C F2             00 00 00 00
    [0x00, 0x00, 0x00, 0x00], // 3D F3             00 00 00 00
    [0x00, 0x00, 0x00, 0x00], // 3E F4             00 00 00 00
    [0x00, 0x00, 0x00, 0x00], // 3F F5             00 00 00 00
    [0x00, 0x00, 0x00, 0x00], // 40 F6             00 00 00 00
    [0x00, 0x00, 0x00, 0x00], // 41 F7             00 00 00 00
    [0x00, 0x00, 0x00, 0x00], // 42 F8             00 00 00 00
    [0x00, 0x00, 0x00, 0x00], // 43 F9             00 00 00 00
    [0x00, 0x00, 0x00, 0x00], // 44 F10            00 00 00 00
    [0x00, 0x00, 0x00, 0x00], // 45 NumLock        00 00 00 00
    [0x00, 0x00, 0x00, 0x00], // 46 ScrollLock     00 00 00 00
    [0x00, 0x00, 0x00, 0x00], // 47 Home           00 00 00 00
    [0x00, 0x00, 0x00, 0x00], // 48 Up             00 00 00 00
    [0x00, 0x00, 0x00, 0x00], // 49 PageUp         00 00 00 00
    [b'-', b'-', b'-', b'-'], // 4A PadMinus       2D 2D 2D 2D
    [0x00, 0x00, 0x00, 0x00], // 4B Left           00 00 00 00
    [0x00, 0x00, 0x00, 0x00], // 4C Pad5           00 00 00 00
    [0x00, 0x00, 0x00, 0x00], // 4D Right          00 00 00 00
    [b'+', b'+', b'+', b'+'], // 4E PadPlus        2B 2B 2B 2B
    [0x00, 0x00, 0x00, 0x00], // 4F End            00 00 00 00
    [0x00, 0x00, 0x00, 0x00], // 50 Down           00 00 00 00
    [0x00, 0x00, 0x00, 0x00], // 51 PageDown       00 00 00 00
    [0x00, 0x00, 0x00, 0x00], // 52 Insert         00 00 00 00
    [0x00, 0x00, 0x00, 0x00], // 53 Delete         00 00 00 00
    [0x00, 0x00, 0x00, 0x00], // 54 Unknown1       00 00 00 00
    [0x00, 0x00, 0x00, 0x00], // 55 Unknown2       00 00 00 00
    [0x00, 0x00, 0x00, 0x00], // 56 NonUsBackslash 00 00 00 00
    [0x00, 0x00, 0x00, 0x00], // 57 F11            00 00 00 00
    [0x00, 0x00, 0x00, 0x00], // 58 F12            00 00 00 00
    [0x00, 0x00, 0x00, 0x00], // 59 Pause          00 00 00 00
    [0x00, 0x00, 0x00, 0x00], // 5A Unknown3       00 00 00 00
    [0x00, 0x00, 0x00, 0x00], // 5B SuperKeyLeft   00 00 00 00
    [0x00, 0x00, 0x00, 0x00], // 5C SuperKeyRight  00 00 00 00
    [0x00, 0x00, 0x00, 0x00], // 5D Menu           00 00 00 00
];
