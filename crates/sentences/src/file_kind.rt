// What a file is that is no module, by how it begins.

/// What a file is, and what makes a module of it.
#[derive(Clone, Copy, Debug)]
pub struct FileKind {
    pub name: &'static str,
    pub help: &'static str,
}

fn kind(name: &'static str, help: &'static str) -> Option<FileKind> {
    Some(FileKind { name, help })
}

/// How many bytes are looked at to know a text.
const LOOKED_AT: usize = 64;

/// With what source code of C, C++ or Rust often begins.
const SOURCES: [&[u8]; 7] = [
    b"#include",
    b"#define",
    b"#pragma",
    b"#if",
    b"#![",
    b"//",
    b"/*",
];

fn is_source(text: &[u8]) -> bool {
    SOURCES.iter().any(|begin| text.starts_with(begin))
}

fn is_text(bytes: &[u8]) -> bool {
    bytes.iter().take(LOOKED_AT).all(|byte| byte.is_ascii_graphic() || byte.is_ascii_whitespace())
}

/// What a text is that begins with these bytes.
fn kind_of_text(text: &[u8]) -> Option<FileKind> {
    match text {
        [b'(' | b';', ..] => kind("WebAssembly text", "assemble it with wat2wasm"),
        [b'{' | b'[', ..] => kind("JSON", "run a script with 'wasmloop script FILE'"),
        [b'0', b'0', b'6', b'1', b'7', b'3', b'6', ..] => {
            kind("hexadecimal digits", "turn them into bytes with xxd -r -p")
        }
        [b'A', b'G', b'F', b'z', b'b', b'Q', ..] => {
            kind("base64", "turn it into bytes with base64 -d")
        }
        _ if is_source(text) => kind("source code", "compile and link it, as docs/GUESTS.md does"),
        [_, ..] if is_text(text) => kind("a text file", "give the module that wasm-ld wrote"),
        _ => None,
    }
}

/// What a file is that is no module, if that is known.
pub fn kind_of_file(bytes: &[u8]) -> Option<FileKind> {
    match bytes {
        [0x1f, 0x8b, ..] => kind("a gzip file", "decompress it"),
        [0x28, 0xb5, 0x2f, 0xfd, ..] => kind("a zstd file", "decompress it"),
        [0xfd, b'7', b'z', b'X', b'Z', ..] => kind("an xz file", "decompress it"),
        [b'P', b'K', 0x03, 0x04, ..] => kind("a zip file", "unpack it"),
        [0x7f, b'E', b'L', b'F', ..] => kind("an ELF file", "compile with --target=wasm32"),
        [b'!', b'<', b'a', b'r', b'c', b'h', b'>', ..] => kind(
            "an archive",
            "link it with wasm-ld",
        ),
        [b'B', b'C', 0xc0, 0xde, ..] => kind("LLVM bitcode", "compile without -flto"),
        _ => kind_of_text(bytes.trim_ascii_start()),
    }
}
