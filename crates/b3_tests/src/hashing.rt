//! Hashes in three modes, at once and in pieces, and eight chunks at a time.

use crate::fakes::pattern;
use crate::helpers::{ABC, digest};
use b3_core::{Hasher, Mode, OutputReader, Runtime, Top, Work, compress, hash, hash_wide};
use std::alloc::{AllocError, Global};

// The key and the context of the official test vectors.
const KEY: &[u8; 32] = b"whats the Elvish word for friend";

const CONTEXT: &[u8] = b"BLAKE3 2019-12-27 16:29:52 test vectors context";

// For lengths of the pattern: the compressions of its hash, and the hash in the three modes, from the reference implementation's command.
const HASHES: &str =
    "0 1 af1349b9f5f9a1a6a0404dea36dcc9499bcb25c9adc112b7cc9a93cae41f3262 92b2b75604ed3c761f9d6f62392c8a9227ad0ea3f09573e783f1498a4ed60d26 2cc39783c223154fea8dfb7c1b1660f2ac2dcbd1c1de8277b0b0dd39b7e50d7d
1 1 2d3adedff11b61f14c886e35afa036736dcd87a74d27b5c1510225d0f592e213 6d7878dfff2f485635d39013278ae14f1454b8c0a3a2d34bc1ab38228a80c95b b3e2e340a117a499c6cf2398a19ee0d29cca2bb7404c73063382693bf66cb06c
1024 16 42214739f095a406f3fc83deb889744ac00df831c10daa55189b5d121c855af7 75c46f6f3d9eb4f55ecaaee480db732e6c2105546f1e675003687c31719c7ba4 7356cd7720d5b66b6d0697eb3177d9f8d73a4a5c5e968896eb6a689684302706
1025 18 d00278ae47eb27b34faecf67b4fe263f82d5412916c1ffd97c8cb7fb814b8444 357dc55de0c7e382c900fd6e320acc04146be01db6a8ce7210b7189bd664ea69 effaa245f065fbf82ac186839a249707c3bddf6d3fdda22d1b95a3c970379bcb
2048 33 e776b6028c7cd22a4d0ba182a8bf62205d2ef576467e838ed6f2529b85fba24a 879cf1fa2ea0e79126cb1063617a05b6ad9d0b696d0d757cf053439f60a99dd1 7b2945cb4fef70885cc5d78a87bf6f6207dd901ff239201351ffac04e1088a23
2049 35 5f4d72f40d7a5f82b15ca2b2e44b1de3c2ef86c426c95c1af0b6879522563030 9f29700902f7c86e514ddc4df1e3049f258b2472b6dd5267f61bf13983b78dd5 2ea477c5515cc3dd606512ee72bb3e0e758cfae7232826f35fb98ca1bcbdf273
8191 135 bae8dc916e8643c6cf024097237cde1cba35c05b5d84c02834cb6b886edb76d9 c3385eef7eecadd83b7ab86aa3610cb5c6ee1dc13dfff4b3b4283d5b75a4c812 866032735116a2192652b87a61d0cb1886905e823eadc067917d01e30de34914
8192 135 aae792484c8efe4f19e2ca7d371d8c467ffb10748d8a5a1ae579948f718a2a63 dc9637c8845a770b4cbf76b8daec0eebf7dc2eac11498517f08d44c8fc00d58a ad01d7ae4ad059b0d33baa3c01319dcf8088094d0359e5fd45d6aeaa8b2d0c3d
8193 137 bab6c09cb8ce8cf459261398d2e7aef35700bf488116ceb94a36d0f5f1b7bc3b 954a2a75420c8d6547e3ba5b98d963e6fa6491addc8c023189cc519821b4a1f5 af1e0346e389b17c23200270a64aa4e1ead98c61695d917de7d5b00491c9b0f1
9217 154 d42c90aa30bee83ecb52ad31b685d566145649496764878873598cef582d4d8f b54d1d99dad847130773e50a3cd10958e26e9e9bfc9c9ab35cd201137fe24dd8 3ba784c9fc7b3a438f6143715a0dcf560cb554d185f360c7c718ac169a0c594c
16384 271 f875d6646de28985646f34ee13be9a576fd515f76b5b0a26bb324735041ddde4 9e9fc4eb7cf081ea7c47d1807790ed211bfec56aa25bb7037784c13c4b707b0d 160e18b5878cd0df1c3af85eb25a0db5344d43a6fbd7a8ef4ed98d0714c3f7e1
102400 1699 bc3e3d41a1146b069abffad3c0d44860cf664390afce4d9661f7902e7943e085 1c35d1a5811083fd7119f5d5d1ba027b4d01c0c6c49fb6ff2cf75393ea5db4a7 4652cff7a3f385a6103b5c260fc1593e13c778dbe608efb092fe7ee69df6e9c6
";

// A text up to its first space, and the text after that.
fn cut(text: &str) -> (&str, &str) {
    text.split_once(' ').unwrap_or((text, ""))
}

// A number; for anything else, the largest one.
fn number(text: &str) -> u64 {
    text.parse::<u64>().unwrap_or(u64::MAX)
}

// The first 32 bytes of the extended output.
fn first_output(mode: &Mode, bytes: &[u8], work: &mut Work) -> [u8; 32] {
    let mut reader = OutputReader::new(Top::of_input(mode, bytes, work));
    let mut output = [0u8; 32];
    let _filled = reader.fill(&mut output, work);
    output
}

// The hash of bytes that arrive in two pieces.
fn in_pieces(mode: &Mode, bytes: &[u8], work: &mut Work) -> [u8; 32] {
    let mut hasher = Hasher::new(mode);
    let (front, back) = bytes.split_at(bytes.len() / 2);
    hasher.update(front, work);
    hasher.update(back, work);
    hasher.top(work).root32(work)
}

// Both implementations of the hash, the hasher and the output return this digest, each with `count` compressions.
fn are_all(mode: &Mode, bytes: &[u8], wanted: &[u8; 32], count: u64, work: &mut Work) -> bool {
    let before = work.count();
    let is_plain = hash(mode, bytes, work) == *wanted && work.count().wrapping_sub(before) == count;
    let is_wide = hash_wide(mode, bytes, work) == *wanted;
    let is_output = first_output(mode, bytes, work) == *wanted;
    let are_pieces = in_pieces(mode, bytes, work) == *wanted;
    let is_count = work.count().wrapping_sub(before) == count.wrapping_mul(4);
    is_plain && is_wide && is_output && are_pieces && is_count
}

// The bytes take this number of compressions, and have these hashes in the three modes.
fn have_hashes<R: Runtime>(rt: &R, bytes: &[u8], count: u64, digests: &str) -> bool {
    let (plain, rest) = cut(digests);
    let (keyed, derived) = cut(rest);
    let mut work = Work::new(rt);
    let derive = Mode::derive(CONTEXT, &mut work);
    let is_plain = are_all(&Mode::hash(), bytes, &digest(plain), count, &mut work);
    let is_keyed = are_all(&Mode::keyed(KEY), bytes, &digest(keyed), count, &mut work);
    let is_derived = are_all(&derive, bytes, &digest(derived), count, &mut work);
    is_plain && is_keyed && is_derived
}

// The pattern has the length, the compressions and the hashes of the row.
fn is_row<R: AllocGlobal + Runtime>(rt: &R, row: &str) -> bool {
    let (len, rest) = cut(row);
    let (count, digests) = cut(rest);
    match pattern(rt.alloc(), 0, number(len)) {
        Ok(bytes) => have_hashes(rt, bytes.as_slice(), number(count), digests),
        Err(_) => false,
    }
}

// The words of the hash of `abc`.
const HASH_OF_ABC: [u32; 8] = [
    0xacb3_3764,
    0x3351_4638,
    0x753b_b6ff,
    0xb58d_3a27,
    0x4658_c548,
    0x03db_795d,
    0x6c9c_35fd,
    0x859d_bdd5,
];

// The root over the nodes of eight chunks.
fn root_of_eight(mode: &Mode, bytes: &[u8; 8192], work: &mut Work) -> [u8; 32] {
    let [n0, n1, n2, n3, n4, n5, n6, n7] = Top::of_eight(mode, bytes, 0, work);
    let first = Top::parent(mode, &n0, &n1, work);
    let second = Top::parent(mode, &n2, &n3, work);
    let third = Top::parent(mode, &n4, &n5, work);
    let fourth = Top::parent(mode, &n6, &n7, work);
    let left = Top::parent(mode, &first, &second, work);
    let right = Top::parent(mode, &third, &fourth, work);
    Top::parent(mode, &left, &right, work).root32(work)
}

#[test]
fn patterns_in_three_modes(rt: HostRuntime) {
    let mut rows = 0u64;
    for row in HASHES.lines() {
        assert!(rt; is_row(&rt, row), "{row}");
        rows = rows.wrapping_add(1);
    }
    assert!(rt; rows == 12);
}

#[test]
fn one_compression(rt: HostRuntime) {
    let mut work = Work::new(&rt);
    let initial = [
        0x6a09_e667,
        0xbb67_ae85,
        0x3c6e_f372,
        0xa54f_f53a,
        0x510e_527f,
        0x9b05_688c,
        0x1f83_d9ab,
        0x5be0_cd19,
    ];
    let mut block = [0u32; 16];
    block[0] = 0x0063_6261;
    let words = compress(&initial, &block, 0, 3, 1 + 2 + 8, &mut work);
    let (chaining_value, _) = words.split_at(8);
    assert!(rt; chaining_value == HASH_OF_ABC.as_slice() && work.count() == 1);
}

// The whole takes as many compressions as one hash of it.
#[test]
fn eight_chunks_at_a_time(rt: HostRuntime) {
    let bytes = pattern(rt.alloc(), 0, 8192).expect(&rt, "memory for the pattern");
    let (whole, _) = bytes.as_slice().as_chunks::<8192>();
    let mut work = Work::new(&rt);
    let root = match whole.first() {
        Some(eight) => root_of_eight(&Mode::keyed(KEY), eight, &mut work),
        None => [0; 32],
    };
    let wanted = digest("dc9637c8845a770b4cbf76b8daec0eebf7dc2eac11498517f08d44c8fc00d58a");
    assert!(rt; root == wanted && work.count() == 135);
}

// The chaining value of the chunk `abc` with the number 2^32 in the keyed mode, from the second reading of the specification.
const HIGH_CHUNK: [u32; 8] = [
    0xa4be_584b,
    0x044f_acfc,
    0xe998_0c5c,
    0x3f04_de4e,
    0x6720_5d2f,
    0x0eb5_fc20,
    0xfe4c_fcaf,
    0x0065_05a2,
];

#[test]
fn a_chunk_number_of_two_words(rt: HostRuntime) {
    let mut work = Work::new(&rt);
    let node = Top::of_chunk(&Mode::keyed(KEY), b"abc", 1 << 32, &mut work);
    assert!(rt; node.cv(&mut work) == HIGH_CHUNK && work.count() == 1);
}

// What a copy is given does not affect the hasher.
#[test]
fn a_copy_of_a_hasher_goes_on_alone(rt: HostRuntime) {
    let mut work = Work::new(&rt);
    let mut hasher = Hasher::new(&Mode::hash());
    hasher.update(b"ab", &mut work);
    let mut copy = hasher.clone().expect(&rt, "a copy");
    copy.update(b"c", &mut work);
    let is_alone = hasher.count() == 2 && copy.count() == 3;
    assert!(rt; is_alone && copy.digest(&mut work) == digest(ABC));
}

// The chaining value of a keyed parent is the key: no text shows it.
fn texts(alloc: Global, mode: &Mode, hasher: &Hasher, parent: Top) -> Result<String, AllocError> {
    let reader = OutputReader::new(parent);
    format!(in alloc; "{mode:?} {hasher:?} {parent:?} {reader:?}")
}

// The texts of a keyed mode, of a hasher of three bytes, of a parent of its nodes, and of a reader of its output.
const TEXTS: &str =
    "Mode(keyed_hash) Hasher { mode: keyed_hash, count: 3 } Top { counter: 0, block_len: 64, flags: 20 } OutputReader { position: 0 }";

#[test]
fn texts_show_no_key(rt: HostRuntime) {
    let (mode, mut work) = (Mode::keyed(KEY), Work::new(&rt));
    let mut hasher = Hasher::new(&mode);
    hasher.update(b"abc", &mut work);
    let node = hasher.top(&mut work);
    let parent = Top::parent(&mode, &node, &node, &mut work);
    let text = texts(rt.alloc(), &mode, &hasher, parent).expect(&rt, "memory for the texts");
    assert!(rt; text.as_str() == TEXTS);
}
