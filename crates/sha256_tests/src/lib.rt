// The examples of SHA-256, at once and in pieces.
#![tactic(auto)]

#[cfg(test)]
mod tests {
    use sha256::hasher::Hasher;
    use sha256::sha256;

    // Lengths about which the padding changes, and the digests of rows of so many letters a, by their halves.
    const EDGES: [(usize, u128, u128); 10] = [
        (
            55,
            0x9f4390f8_d30c2dd9_2ec9f095_b65e2b9a,
            0xe9b0a925_a5258e24_1c9f1e91_0f734318,
        ),
        (
            56,
            0xb35439a4_ac6f0948_b6d6f9e3_c6af0f5f,
            0x590ce20f_1bde7090_ef797068_6ec6738a,
        ),
        (
            57,
            0xf13b2d72_4659eb3b_f47f2dd6_af1accc8,
            0x7b81f09f_59f2b75e_5c0bed65_89dfe8c6,
        ),
        (
            63,
            0x7d3e74a0_5d7db15b_ce4ad9ec_0658ea98,
            0xe3f06eee_cf16b4c6_fff2da45_7ddc2f34,
        ),
        (
            64,
            0xffe054fe_7ae0cb6d_c65c3af9_b61d5209,
            0xf439851d_b43d0ba5_997337df_154668eb,
        ),
        (
            65,
            0x635361c4_8bb9eab1_4198e76e_a8ab7f1a,
            0x41685d6a_d62aa914_6d301d4f_17eb0ae0,
        ),
        (
            119,
            0x31eba51c_313a5c08_226adf18_d4a359cf,
            0xdfd8d2e8_16b13f4a_f952f7ea_6584dcfb,
        ),
        (
            120,
            0x2f3d3354_32c70b58_0af0e8e1_b3674a7c,
            0x020d683a_a5f73aaa_edfdc55a_f904c21c,
        ),
        (
            127,
            0xc57e9278_af78fa3c_ab38667b_ef4ce29d,
            0x783787a2_f731d4e1_2200270f_0c32320a,
        ),
        (
            128,
            0x6836cf13_bac400e9_105071cd_6af47084,
            0xdfacad4e_5e302c94_bfed24e0_13afb73e,
        ),
    ];

    // A digest by its two halves.
    fn halves(high: u128, low: u128) -> [u8; 32] {
        let mut digest = [0; 32];
        digest[..16].copy_from_slice(&high.to_be_bytes());
        digest[16..].copy_from_slice(&low.to_be_bytes());
        digest
    }

    // Whether a message has this digest, at once and cut in two.
    fn has(message: &[u8], high: u128, low: u128) -> bool {
        let cut = message.len() / 3;
        let mut hasher = Hasher::new();
        hasher.absorb(&message[..cut]);
        hasher.absorb(&message[cut..]);
        let digest = halves(high, low);
        sha256(message) == digest && hasher.digest() == digest
    }

    #[test]
    fn texts(rt: HostRuntime) {
        let examples = [
            (
                "",
                0xe3b0c442_98fc1c14_9afbf4c8_996fb924,
                0x27ae41e4_649b934c_a495991b_7852b855,
            ),
            (
                "abc",
                0xba7816bf_8f01cfea_414140de_5dae2223,
                0xb00361a3_96177a9c_b410ff61_f20015ad,
            ),
            (
                "abcdbcdecdefdefgefghfghighijhijkijkljklmklmnlmnomnopnopq",
                0x248d6a61_d20638b8_e5c02693_0c3e6039,
                0xa33ce459_64ff2167_f6ecedd4_19db06c1,
            ),
            (
                "abcdefghbcdefghicdefghijdefghijkefghijklfghijklmghijklmnhijklmnoijklmnopjklmnopqklmnopqrlmnopqrsmnopqrstnopqrstu",
                0xcf5b16a7_78af8380_036ce59e_7b049237,
                0x0b249b11_e8f07a51_afac4503_7afee9d1,
            ),
        ];
        for (text, high, low) in examples {
            assert!(rt; has(text.as_bytes(), high, low));
        }
    }

    #[test]
    fn padding_edges(rt: HostRuntime) {
        let row = [0x61; 128];
        for (length, high, low) in EDGES {
            assert!(rt;
                row.get(..length)
                    .is_some_and(|message| has(message, high, low))
            );
        }
    }

    #[test]
    fn million(rt: HostRuntime) {
        let piece = [0x61; 100];
        let mut hasher = Hasher::new();
        for _ in 0..10_000 {
            hasher.absorb(&piece);
        }
        assert!(rt;
            hasher.digest()
                == halves(
                    0xcdc76e5c_9914fb92_81a1c7e2_84d73e67,
                    0xf1809a48_a497200e_046d39cc_c7112cd0,
                )
        );
    }
}
